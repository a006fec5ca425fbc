// A request with its result, one request's outcome, and a request with two results.
ghost use Rattle.std.specs.Prelude.{◌≡◌, length};
ghost use Rattle.pair.specs.Pairing.{pair_told, taken_after, not_taken_after};
ghost use Rattle.outcomes.specs.Outcomes.{outcome_told};
ghost use Rattle.two_results.specs.Comparing.{story_told};
ghost use Rattle.telling.specs.Numbers.{five, story_seven, ten};

use answers::told::Answer;
use outcomes::asking;
use pair::pairing;
use telling::answer::{tell, tell_story};
use telling::outcome::tell_outcome;
use two_results::comparing;

// Pairs a request with its result. Returns the refusal's number, 0 when accepted; a refusal leaves both lists as they were.
#[unsafe(no_mangle)]
pub extern "C" fn cms_pair(
    pair: u32,
    request: &[u8],
    res: &[u8],
    taken: &mut [u64],
    not_taken: &mut [u64],
    answer: &mut [u64; 5],
) -> u64
    ensures value { result ≡ (pair_told pair request.now res.now (length taken.old) (length not_taken.old)).number }
    ensures taken_after { taken.new ≡ taken_after pair request.now res.now (length taken.old) (length not_taken.old) taken.old }
    ensures not_taken_after { not_taken.new ≡ not_taken_after pair request.now res.now (length taken.old) (length not_taken.old) not_taken.old }
    ensures answer_after { answer.new ≡ five (pair_told pair request.now res.now (length taken.old) (length not_taken.old)) }
{
    let told = Answer::of_two(pairing::pair(pair as u64, request, res, taken, not_taken));
    tell(told, answer)
}

// What became of one request, by its record number. Returns the refusal's number, 0 when accepted.
#[unsafe(no_mangle)]
pub extern "C" fn cms_outcome(
    pair: u32,
    request: &[u8],
    res: &[u8],
    record: u64,
    answer: &mut [u64; 10],
) -> u64
    ensures value { result ≡ (outcome_told pair request.now res.now «record»).answer.number }
    ensures answer_after { answer.new ≡ ten (outcome_told pair request.now res.now «record») }
{
    let told = asking::outcome(pair as u64, request, res, record);
    tell_outcome(told, answer)
}

// Compares two results of one debit request. Returns the refusal's number, 0 when both pair with it.
#[unsafe(no_mangle)]
pub extern "C" fn cms_two_results(
    pair: u32,
    request: &[u8],
    first: &[u8],
    second: &[u8],
    answer: &mut [u64; 7],
) -> u64
    ensures value { result ≡ (story_told pair request.now first.now second.now).answer.number }
    ensures answer_after { answer.new ≡ story_seven (story_told pair request.now first.now second.now) }
{
    let told = comparing::compare(pair as u64, request, first, second);
    tell_story(told, answer)
}
