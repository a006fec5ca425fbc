// Two results of one debit request: 1; the pair with the first, the pair with the second; then the first request in which the
// lists differ. No lists are lent: what was not taken is asked of one request after the other.
ghost use Rattle.std.specs.Prelude.{◌≡◌};
ghost use Rattle.answers.specs.OfTwo.{request_by, story_by};
ghost use Rattle.pair.specs.First.{BothRead};
ghost use Rattle.two_results.specs.Comparing.{first_other, story_as, story_in, story_told};

use answers::of_two::{OfResults, OfTwo};
use answers::refusing::Refusal;
use kinds::of_pairs;
use kinds::of_pairs::{Family, PairKind};
use matching::{amounts, lookup};
use pair::pairing;
use records::listed;

// Told of the first.
const NO_DEBIT: OfResults = OfResults::WithFirst(OfTwo::Both(Refusal::UnknownKind));

// What was taken is the rest, so it differs only where what was not taken does.
fn first_other(pair: PairKind, request: &[u8], first: &[u8], second: &[u8]) -> Option<u32>
    requires both_read { BothRead pair request.now first.now }
    requires both_read_2 { BothRead pair request.now second.now }
    ensures { request_by result ≡ first_other pair request.now first.now second.now }
{
    let by_first = lookup::results_for(pair, request, first);
    let by_second = lookup::results_for(pair, request, second);
    for i in 0..listed::data_count(of_pairs::request_kind(pair), request) {
        let left = amounts::not_taken_by(pair, first, by_first[i] as usize);
        if left != amounts::not_taken_by(pair, second, by_second[i] as usize) {
            return Some(i as u32);
        }
    }
    None
}

// Two results of a known pair kind.
fn story_as(
    pair: PairKind,
    request: &[u8],
    first: &[u8],
    second: &[u8],
) -> Result<Option<u32>, OfResults>
    ensures { story_by result ≡ story_as pair request.now first.now second.now }
{
    pairing::pair_by(pair, request, first, true).map_err(OfResults::WithFirst)?;
    pairing::pair_by(pair, request, second, true).map_err(OfResults::WithSecond)?;
    Ok(first_other(pair, request, first, second))
}

// Enrolment has no amounts.
fn story_in(
    pair: PairKind,
    request: &[u8],
    first: &[u8],
    second: &[u8],
) -> Result<Option<u32>, OfResults>
    ensures { story_by result ≡ story_in pair.family pair request.now first.now second.now }
{
    match pair.family {
        Family::Enrolment => Err(NO_DEBIT),
        Family::Debit => story_as(pair, request, first, second),
    }
}

// Compares any bytes as two results of one request, and says in which request, from 0 on, they differ first.
// `kind` is the request's kind's four letters as one number.
#[tactic(auto, unfolding(crate::specs::Comparing::story_told))]
pub fn compare(
    kind: u64,
    request: &[u8],
    first: &[u8],
    second: &[u8],
) -> Result<Option<u32>, OfResults>
    ensures { story_by result ≡ story_told kind request.now first.now second.now }
{
    let Some(known) = of_pairs::pair_of(kind) else {
        return Err(NO_DEBIT);
    };
    story_in(known, request, first, second)
}
