// What can become of one request.
ghost use Rattle.std.specs.Prelude.{◌≡◌};
ghost use Rattle.outcomes.specs.Outcomes.{maker_in, numbers_of, told_of};

use answers::of_two::OfTwo;
use answers::told::Answer;
use tables::makers::Maker;

// Won as numbers, the result's code, and who set it.
#[derive(Clone, Copy)]
pub enum Outcome {
    // the answer is a refusal
    None,
    // all was taken
    Whole(u64),
    // taken, not taken, code, maker
    Part(u64, u64, u64, Maker),
    // nothing was taken: not taken, code, maker
    Refused(u64, u64, Maker),
}

// Kept: document 01 wants an outcome enum inside the answer struct.
#[derive(Clone, Copy)]
pub struct Told {
    pub answer: Answer,
    pub outcome: Outcome,
}

impl Told {
    // What is told of an outcome, or of why there is none.
    pub(crate) fn of(found: Result<Outcome, OfTwo>) -> Self
        ensures { result ≡ told_of found }
    {
        Told {
            answer: Answer::of_two(found),
            outcome: found.unwrap_or(Outcome::None),
        }
    }
}

// Four spaces: no code.
const BLANK: u64 = 0x2020_2020;

// Who set the code; none where all was taken.
pub fn maker_in(outcome: Outcome) -> Maker
    ensures { result ≡ maker_in outcome }
{
    match outcome {
        Outcome::None | Outcome::Whole(_) => Maker::None,
        Outcome::Part(_, _, _, maker) | Outcome::Refused(_, _, maker) => maker,
    }
}

// The case as a number, taken, not taken, the code and the maker as a number.
pub fn numbers(outcome: Outcome) -> [u64; 5]
    ensures { result ≡ numbers_of outcome }
{
    let maker = maker_in(outcome) as u64;
    match outcome {
        Outcome::None => [0, 0, 0, BLANK, maker],
        Outcome::Whole(taken) => [1, taken, 0, BLANK, maker],
        Outcome::Part(taken, not_taken, code, _) => [2, taken, not_taken, code, maker],
        Outcome::Refused(not_taken, code, _) => [3, 0, not_taken, code, maker],
    }
}
