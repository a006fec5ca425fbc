// What is told of a day file: its own number, which body, and that body's five.
ghost use Rattle.std.specs.Prelude.{◌≡◌, [], ◌∷◌, ◌++◌};
ghost use Rattle.answers.specs.OfDay.{counted_by, shown_by};
ghost use Rattle.telling.specs.Numbers.{seven, day_eight, day_ten};

use crate::part;
use answers::lying::Part;
use answers::of_day::{DayAnswer, OfDay};

// Stores the seven, then a number, and returns the day's number.
pub fn tell_count(told: DayAnswer, count: u64, answer: &mut [u64; 8]) -> u64
    ensures value { result ≡ told.number }
    ensures answer_after { answer.new ≡ seven told ++ (count ∷ []) }
{
    let own = told.answer;
    *answer = [
        told.number,
        told.body,
        own.side,
        own.number,
        own.rec,
        own.item,
        own.code,
        count,
    ];
    told.number
}

// The same with how many bodies or bytes.
pub fn tell_day(told: Result<usize, OfDay>, answer: &mut [u64; 8]) -> u64
    ensures value { result ≡ (counted_by told).answer.number }
    ensures answer_after { answer.new ≡ day_eight (counted_by told) }
{
    let said = DayAnswer::of(told);
    let count = told.unwrap_or(0) as u64;
    tell_count(said, count, answer)
}

// Stores the seven, then a case, a first byte and a length, and returns the day's number.
pub fn tell_lying(told: DayAnswer, case: u64, start: u64, size: u64, answer: &mut [u64; 10]) -> u64
    ensures value { result ≡ told.number }
    ensures answer_after { answer.new ≡ seven told ++ (case ∷ start ∷ size ∷ []) }
{
    let own = told.answer;
    *answer = [
        told.number,
        told.body,
        own.side,
        own.number,
        own.rec,
        own.item,
        own.code,
        case,
        start,
        size,
    ];
    told.number
}

// The same with where a body lies.
pub fn tell_body(shown: Result<Option<Part>, OfDay>, answer: &mut [u64; 10]) -> u64
    ensures value { result ≡ (shown_by shown).answer.number }
    ensures answer_after { answer.new ≡ day_ten (shown_by shown) }
{
    let said = DayAnswer::of(shown);
    let [case, start, size] = part::three(shown);
    tell_lying(said, case, start, size, answer)
}
