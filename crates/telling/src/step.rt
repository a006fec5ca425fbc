// An answer with a step through the records.
ghost use Rattle.std.specs.Prelude.{◌≡◌};
ghost use Rattle.walker.specs.Walks.{three_of, walked_by};
ghost use Rattle.telling.specs.Numbers.{eight};

use crate::part;
use answers::refusing::Refusal;
use answers::told::Answer;
use walker::walking::Record;

// The case, and the record's first byte and length.
fn three(walked: Result<Option<Record>, Refusal>) -> [u64; 3]
    ensures { result ≡ three_of (walked_by walked).step }
{
    match walked {
        Err(_) => [0, 0, 0],
        Ok(Some(rec)) => [1, rec.start, rec.size],
        Ok(None) => [2, 0, 0],
    }
}

// Stores the five, then case, first byte and length, and returns the number.
pub fn tell_step(walked: Result<Option<Record>, Refusal>, answer: &mut [u64; 8]) -> u64
    ensures value { result ≡ (walked_by walked).answer.number }
    ensures answer_after { answer.new ≡ eight (walked_by walked) }
{
    let said = Answer::of(walked);
    let [case, start, size] = three(walked);
    part::tell_place(said, case, start, size, answer)
}
