// A request with its result: 1; the request's reading, the result's; 12; 8; then the result records in order.
ghost use Rattle.std.specs.Prelude.{◌≡◌, length};
ghost use Rattle.records.specs.Records.{data_of};
ghost use Rattle.kinds.specs.Pairs.{request_kind};
ghost use Rattle.answers.specs.OfTwo.{answer_of_two};
ghost use Rattle.pair.specs.Pairing.{lists_fit, pair_by, pair_as, list_after, pair_told, taken_after, not_taken_after};
ghost use Rattle.matching.specs.Amounts.{taken_at, not_taken_at};

use crate::{lists, results};
use agreement::meeting;
use answers::of_two::OfTwo;
use answers::refusing::Refusal;
use kinds::of_pairs;
use kinds::of_pairs::PairKind;
use matching::lookup;
use reader::reading;
use records::listed;

// Everything but the lists: `fits` says whether they are long enough.
pub fn pair_by(pair: PairKind, request: &[u8], res: &[u8], fits: bool) -> Result<(), OfTwo>
    ensures { answer_of_two result ≡ pair_by pair request.now res.now fits }
{
    reading::read_as(of_pairs::request_kind(pair), request).map_err(OfTwo::First)?;
    reading::read_as(of_pairs::result_kind(pair), res).map_err(OfTwo::Second)?;
    meeting::headers_tell(pair, request, res)?;
    if !fits {
        return Err(OfTwo::Both(Refusal::ShortRoom));
    }
    let requests = lookup::requests_for(pair, request, res);
    results::results_tell(pair, request, res, &requests)?;
    Ok(())
}

#[tactic(auto, unfolding(crate::specs::Pairing::lists_fit))]
fn lists_fit(n: usize, taken: usize, not_taken: usize) -> bool
    ensures { result ≡ lists_fit n taken not_taken }
{
    n <= taken && n <= not_taken
}

// Decides first, then fills the lists.
fn pair_as(
    pair: PairKind,
    request: &[u8],
    res: &[u8],
    taken: &mut [u64],
    not_taken: &mut [u64],
) -> Result<(), OfTwo>
    ensures value { answer_of_two result ≡ pair_as pair request.now res.now (length taken.old) (length not_taken.old) }
    ensures taken_after { taken.new ≡ list_after (pair_as pair request.now res.now (length taken.old) (length not_taken.old)) (taken_at pair request.now res.now) (data_of (request_kind pair) request.now) taken.old }
    ensures not_taken_after { not_taken.new ≡ list_after (pair_as pair request.now res.now (length taken.old) (length not_taken.old)) (not_taken_at pair request.now res.now) (data_of (request_kind pair) request.now) not_taken.old }
{
    let n = listed::data_count(of_pairs::request_kind(pair), request);
    let fits = lists_fit(n, taken.len(), not_taken.len());
    pair_by(pair, request, res, fits)?;
    lists::fill(pair, request, res, taken, not_taken);
    Ok(())
}

// Pairs any bytes as a request and its result, and says for each request how much was taken and how much was not.
// `kind` is the request's kind's four letters as one number; a refusal leaves both lists as they were.
// Kept: two lists of one length side by side, since a C caller lends them so.
#[tactic(auto, unfolding(crate::specs::Pairing::pair_told, crate::specs::Pairing::taken_after, crate::specs::Pairing::not_taken_after))]
pub fn pair(
    kind: u64,
    request: &[u8],
    res: &[u8],
    taken: &mut [u64],
    not_taken: &mut [u64],
) -> Result<(), OfTwo>
    ensures value { answer_of_two result ≡ pair_told kind request.now res.now (length taken.old) (length not_taken.old) }
    ensures taken_after { taken.new ≡ taken_after kind request.now res.now (length taken.old) (length not_taken.old) taken.old }
    ensures not_taken_after { not_taken.new ≡ not_taken_after kind request.now res.now (length taken.old) (length not_taken.old) not_taken.old }
{
    let Some(known) = of_pairs::pair_of(kind) else {
        return Err(OfTwo::Both(Refusal::UnknownKind));
    };
    pair_as(known, request, res, taken, not_taken)
}
