// The posting program's output for two files, put into a lent buffer.
ghost use Rattle.std.specs.Prelude.{◌≡◌, ◌+◌, ◌*◌, ◌≤◌, [], ◌++◌, length};
ghost use Rattle.laws.specs.Joined.{joined};
ghost use Rattle.kinds.specs.Kinds.{limit, EB21};
ghost use Rattle.kinds.specs.Pairs.{debit_pair};
ghost use Rattle.records.specs.Records.{count_of, data_of};
ghost use Rattle.matching.specs.Matching.{results_for};
ghost use Rattle.posting.specs.Lines.{line_most};
ghost use Rattle.answers.specs.OfTwo.{answer_of_two};
ghost use Rattle.posting.specs.Posting.{most, longest, post_tells, line_at, accepted_text, post_text, post_size, post_after};

use crate::lines;
use crate::puts::Text;
use answers::of_two::OfTwo;
use answers::refusing::Refusal;
use kinds::of_files::{Fixed, Kind};
use kinds::of_pairs::PairKind;
use matching::lookup;
use outcomes::{asking, sums};
use pair::pairing;
use records::listed;
use text::parts;

// The longest file that the program takes.
const MOST: usize = 64_800;

// The most requests that such a file has.
const REQUESTS: usize = MOST / Fixed::DEBIT_SIZE - 2;

// Room for the longest text: a first line, and a line for each request.
pub const LONGEST: usize = 100 + REQUESTS * lines::LINE;

// Sizes before all else, the request's first: 3 on its side where a file is longer; then the pair.
fn post_tells(request: &[u8], res: &[u8]) -> Result<(), OfTwo>
    ensures { answer_of_two result ≡ post_tells request.now res.now }
{
    if MOST < request.len() {
        return Err(OfTwo::First(Refusal::TooMany));
    }
    if MOST < res.len() {
        return Err(OfTwo::Second(Refusal::TooMany));
    }
    pairing::pair_by(PairKind::DEBIT, request, res, true)
}

// The line of each request, one after the other.
fn put_requests(request: &[u8], res: &[u8], results: &[u16], n: usize, text: &mut Text)
    requires n_value { n ≡ data_of EB21 request.now }
    requires n_le_limit { n ≤ limit }
    requires results_value { results.now ≡ results_for debit_pair request.now res.now }
    requires line_most_in_bounds { length text.old + n * line_most ≤ longest }
    ensures { text.new ≡ text.old ++ joined (line_at request.now res.now) n }
{
    for i in 0..n {
        let outcome = asking::outcome_at(PairKind::DEBIT, request, res, i, results[i] as usize);
        lines::put_request(text, (i + 1) as u64, outcome);
    }
}

// The totals, then the requests.
fn put_all(request: &[u8], res: &[u8], results: &[u16], text: &mut Text)
    requires request_len_bound { length request.now ≤ most }
    requires request_bound { count_of EB21 request.now ≤ limit + 2 }
    requires results_value { results.now ≡ results_for debit_pair request.now res.now }
    requires text_empty { text.old ≡ [] }
    ensures { text.new ≡ accepted_text request.now res.now }
{
    let n = listed::data_count(Kind::EB21, request);
    let sums = sums::sums_of(PairKind::DEBIT, request, res, results);
    lines::put_accepted(text, n as u64, sums);
    put_requests(request, res, results, n, text);
}

// The whole text.
fn compose(request: &[u8], res: &[u8], text: &mut Text)
    requires { text.old ≡ [] }
    ensures { text.new ≡ post_text request.now res.now }
{
    if let Err(refusal) = post_tells(request, res) {
        lines::put_refusal(text, refusal.into());
        return;
    }
    let results = lookup::results_for(PairKind::DEBIT, request, res);
    put_all(request, res, &results, text);
}

// Puts the text at the front of a lent buffer and says how long it is; 0 where the buffer is too short, and stays as it was.
pub fn post(request: &[u8], res: &[u8], text: &mut [u8]) -> usize
    ensures value { result ≡ post_size request.now res.now (length text.old) }
    ensures text_after { text.new ≡ post_after request.now res.now text.old }
    ensures upper_bound { result ≤ length text.new }
{
    let mut whole = Text::new();
    compose(request, res, &mut whole);
    let bytes = whole.as_bytes();
    if bytes.len() <= text.len() {
        parts::put(text, 0, bytes);
        return bytes.len();
    }
    0
}
