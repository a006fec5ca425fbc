// An answer, one that comes with bytes in lent room, and one about two results.
ghost use Rattle.std.specs.Prelude.{◌≡◌, [], ◌∷◌, ◌++◌};
ghost use Rattle.answers.specs.OfTwo.{story_by};
ghost use Rattle.answers.specs.Storing.{stored_by};
ghost use Rattle.telling.specs.Numbers.{five, six, story_seven};

use answers::of_two::OfResults;
use answers::refusing::Refusal;
use answers::told::Answer;

// Stores side, number, record, item and code, and returns the number.
pub fn tell(told: Answer, answer: &mut [u64; 5]) -> u64
    ensures value { result ≡ told.number }
    ensures answer_after { answer.new ≡ five told }
{
    *answer = [told.side, told.number, told.rec, told.item, told.code];
    told.number
}

// The same with a size.
pub fn tell_size(told: Answer, size: u64, answer: &mut [u64; 6]) -> u64
    ensures value { result ≡ told.number }
    ensures answer_after { answer.new ≡ five told ++ (size ∷ []) }
{
    *answer = [told.side, told.number, told.rec, told.item, told.code, size];
    told.number
}

// The same with how many bytes were stored.
pub fn tell_stored(stored: Result<usize, Refusal>, answer: &mut [u64; 6]) -> u64
    ensures value { result ≡ (stored_by stored).answer.number }
    ensures answer_after { answer.new ≡ six (stored_by stored) }
{
    let said = Answer::of(stored);
    let size = stored.unwrap_or(0) as u64;
    tell_size(said, size, answer)
}

// The same with the number of a result, and of a request.
pub fn tell_request(told: Answer, which: u64, request: u64, answer: &mut [u64; 7]) -> u64
    ensures value { result ≡ told.number }
    ensures answer_after { answer.new ≡ five told ++ (which ∷ request ∷ []) }
{
    *answer = [
        told.side,
        told.number,
        told.rec,
        told.item,
        told.code,
        which,
        request,
    ];
    told.number
}

// The same with which of two results, and which request.
pub fn tell_story(told: Result<Option<u32>, OfResults>, answer: &mut [u64; 7]) -> u64
    ensures value { result ≡ (story_by told).answer.number }
    ensures answer_after { answer.new ≡ story_seven (story_by told) }
{
    let (said, which, request) = match told {
        Ok(Some(i)) => (Answer::ACCEPTED, 0, u64::from(i) + 1),
        Ok(None) => (Answer::ACCEPTED, 0, 0),
        Err(OfResults::WithFirst(refusal)) => (Answer::from(refusal), 1, 0),
        Err(OfResults::WithSecond(refusal)) => (Answer::from(refusal), 2, 0),
    };
    tell_request(said, which, request, answer)
}
