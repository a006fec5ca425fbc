// An answer with one request's outcome.
ghost use Rattle.std.specs.Prelude.{◌≡◌};
ghost use Rattle.telling.specs.Numbers.{ten};

use outcomes::cases;
use outcomes::cases::Told;

// Stores the five, then case, taken, not taken, code and maker, and returns the number.
pub fn tell_outcome(told: Told, answer: &mut [u64; 10]) -> u64
    ensures value { result ≡ told.answer.number }
    ensures answer_after { answer.new ≡ ten told }
{
    let said = told.answer;
    let [case, taken, not_taken, code, maker] = cases::numbers(told.outcome);
    *answer = [
        said.side,
        said.number,
        said.rec,
        said.item,
        said.code,
        case,
        taken,
        not_taken,
        code,
        maker,
    ];
    said.number
}
