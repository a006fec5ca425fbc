// An answer with where the evidence of a record lies.
ghost use Rattle.std.specs.Prelude.{◌≡◌, [], ◌∷◌, ◌++◌};
ghost use Rattle.answers.specs.Lying.{lies_by};
ghost use Rattle.evidence.specs.Lying.{shown_by};
ghost use Rattle.telling.specs.Numbers.{five, three_for, eight_for};

use answers::lying::Part;
use answers::refusing::Refusal;
use answers::told::Answer;

// The case, and the part's first byte and length.
pub(crate) fn three<E: Copy>(part: Result<Option<Part>, E>) -> [u64; 3]
    ensures { result ≡ three_for (lies_by part) }
{
    match part {
        Err(_) => [0, 0, 0],
        Ok(Some(part)) => [1, part.start as u64, part.size as u64],
        Ok(None) => [2, 0, 0],
    }
}

// Stores the five, then a case, a first byte and a length, and returns the number.
pub fn tell_place(told: Answer, case: u64, start: u64, size: u64, answer: &mut [u64; 8]) -> u64
    ensures value { result ≡ told.number }
    ensures answer_after { answer.new ≡ five told ++ (case ∷ start ∷ size ∷ []) }
{
    *answer = [
        told.side,
        told.number,
        told.rec,
        told.item,
        told.code,
        case,
        start,
        size,
    ];
    told.number
}

// The same with where the evidence of a record lies.
pub fn tell_part(shown: Result<Option<Part>, Refusal>, answer: &mut [u64; 8]) -> u64
    ensures value { result ≡ (shown_by shown).answer.number }
    ensures answer_after { answer.new ≡ eight_for (shown_by shown) }
{
    let said = Answer::of(shown);
    let [case, start, size] = three(shown);
    tell_place(said, case, start, size, answer)
}
