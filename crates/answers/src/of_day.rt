// Why a day file is refused: a reason of its own, or a body's; and what is told of it.
ghost use Rattle.std.specs.Prelude.{◌≡◌};
ghost use Rattle.answers.specs.OfDay.{told_of_day, day_answer_of};

use crate::refusing::Refusal;
use crate::told::Answer;

// A body is its number, from 1 on.
#[derive(Clone, Copy, PartialEq, Eq)]
pub enum OfDay {
    // 30: the contents are none
    Contents,
    // 31: the lengths of the contents are not those of the bodies
    Lengths,
    // 32: a body has the name of an earlier one
    SameName(u64),
    // 33: a body is refused
    Body(u64, Refusal),
    // 8: lent room is too short
    ShortRoom,
}

// The day's own number, which body, and that body's whole answer.
#[derive(Clone, Copy, PartialEq, Eq)]
pub struct DayAnswer {
    pub number: u64,
    // from 1 on; 0 where no body is meant
    pub body: u64,
    pub answer: Answer,
}

impl DayAnswer {
    pub const ACCEPTED: DayAnswer = DayAnswer {
        number: 0,
        body: 0,
        answer: Answer::ACCEPTED,
    };

    // What is told of a result of any kind.
    pub fn of<T: Copy>(told: Result<T, OfDay>) -> Self
        ensures { result ≡ day_answer_of told }
    {
        match told {
            Ok(_) => DayAnswer::ACCEPTED,
            Err(refusal) => refusal.into(),
        }
    }
}

impl From<OfDay> for DayAnswer {
    ghost from_gives = { λ refusal answer. answer ≡ told_of_day refusal };

    fn from(refusal: OfDay) -> Self {
        let (number, body, answer) = match refusal {
            OfDay::Contents => (30, 0, Answer::ACCEPTED),
            OfDay::Lengths => (31, 0, Answer::ACCEPTED),
            OfDay::SameName(body) => (32, body, Answer::ACCEPTED),
            OfDay::Body(body, refusal) => (33, body, refusal.into()),
            OfDay::ShortRoom => (8, 0, Answer::ACCEPTED),
        };
        DayAnswer {
            number,
            body,
            answer,
        }
    }
}
