// What is known before a member is looked at: the pair's answer and the date's, and what was taken of each request, in a lent list.
ghost use Rattle.std.specs.Prelude.{◌≡◌, ◌≤◌, ◌<◌, length};
ghost use Rattle.kinds.specs.Kinds.{limit};
ghost use Rattle.kinds.specs.Pairs.{request_kind};
ghost use Rattle.records.specs.Records.{count_of};
ghost use Rattle.answers.specs.Refusing.{answer_of};
ghost use Rattle.dues.specs.Posting.{date_start, later, day_of, date_tells, dates_as};
ghost use Rattle.dues.specs.Steps.{readied_by, ready_of, ready_list};

use crate::taking;
use answers::of_two::OfTwo;
use answers::refusing::Refusal;
use kinds::of_files::Own;
use kinds::of_pairs;
use kinds::of_pairs::{Family, PairKind};
use pair::pairing;
use records::listed;
use text::parts;

// How many requests there are, and the dates afterwards.
#[derive(Clone, Copy)]
pub struct Ready {
    pub n: usize,
    pub dates: [u8; 12],
}

// Six bytes are later than six others where they are greater at the first place in which they differ.
fn later(a: &[u8], b: &[u8]) -> bool
    requires a_len { length a.now ≡ 6 }
    requires b_len { length b.now ≡ 6 }
    ensures { result ≡ later a.now b.now }
{
    b < a
}

// Where the last date of its sort stands: next-day debits first, then same-day debits.
fn date_start(pair: PairKind) -> usize
    ensures value { result ≡ date_start pair }
    ensures upper_bound { result ≤ 6 }
{
    if pair.request.name == Own::EC21.name {
        6
    } else {
        0
    }
}

// The date of a request, header item 5.
fn day(pair: PairKind, request: &[u8]) -> &[u8]
    requires { 0 < count_of (request_kind pair) request.now }
    ensures result_value { result.now ≡ day_of pair request.now }
    ensures result_len { length result.now ≡ 6 }
{
    let header = listed::record_of(of_pairs::request_kind(pair), request, 0);
    parts::part(header, 27, 6)
}

// 40: it is not later than the last of its sort.
fn date_tells(pair: PairKind, request: &[u8], dates: [u8; 12]) -> Result<(), Refusal>
    requires { 0 < count_of (request_kind pair) request.now }
    ensures { answer_of result ≡ date_tells pair request.now dates }
{
    let last = parts::part(&dates, date_start(pair), 6);
    if later(day(pair, request), last) {
        Ok(())
    } else {
        Err(Refusal::PostedBefore)
    }
}

// The date of its sort moves.
fn dates_after(pair: PairKind, request: &[u8], dates: [u8; 12]) -> [u8; 12]
    requires { 0 < count_of (request_kind pair) request.now }
    ensures { result ≡ dates_as pair request.now dates }
{
    let mut after = dates;
    parts::put(&mut after, date_start(pair), day(pair, request));
    after
}

// What any bytes, as a request and its result, and the dates of earlier postings say before a member is looked at.
// The lent list has what was taken of each request and what stood past them, and is as it was on a refusal.
pub fn ready_of(
    kind: u64,
    request: &[u8],
    res: &[u8],
    dates: [u8; 12],
    taken: &mut [u64],
) -> Result<Ready, OfTwo>
    requires { limit ≤ length taken.old }
    ensures { (readied_by dates result ≡ ready_of kind request.now res.now dates) × (taken.new ≡ ready_list kind request.now res.now dates taken.old) }
{
    let Some(pair) = of_pairs::pair_of(kind) else {
        return Err(OfTwo::Both(Refusal::UnknownKind));
    };
    // enrolment takes no money
    let Family::Debit = pair.family else {
        return Err(OfTwo::Both(Refusal::UnknownKind));
    };
    pairing::pair_by(pair, request, res, true)?;
    date_tells(pair, request, dates)?;
    let n = listed::data_count(of_pairs::request_kind(pair), request);
    taking::fill(pair, request, res, n, taken);
    Ok(Ready {
        n,
        dates: dates_after(pair, request, dates),
    })
}
