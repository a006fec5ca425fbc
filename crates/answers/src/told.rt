// What the treasurer is told: side, number, record, item and code.
ghost use Rattle.std.specs.Prelude.{◌≡◌};
ghost use Rattle.answers.specs.Answers.{refused, refused_at, on_side};
ghost use Rattle.answers.specs.Refusing.{told_by, item_of, answer_of};
ghost use Rattle.answers.specs.OfTwo.{told_of_two, answer_of_two};

use crate::of_two::OfTwo;
use crate::refusing::Refusal;

// A code is its four bytes as one number; `rec` is the record.
#[derive(Clone, Copy, PartialEq, Eq)]
pub struct Answer {
    pub side: u64,
    pub number: u64,
    pub rec: u64,
    pub item: u64,
    pub code: u64,
}

impl Answer {
    // An unused code, "0000".
    pub const UNUSED: u64 = 0x3030_3030;

    pub const ACCEPTED: Answer = Answer {
        side: 0,
        number: 0,
        rec: 0,
        item: 0,
        code: Answer::UNUSED,
    };

    // A number with no place.
    pub fn refused(number: u64) -> Self
        ensures { result ≡ refused number }
    {
        Answer::refused_at(number, 0, 0, Answer::UNUSED)
    }

    // A number with an item, and no code.
    fn item(number: u64, rec: u64, item: u64) -> Self
        ensures { result ≡ item_of number rec item }
    {
        Answer::refused_at(number, rec, item, Answer::UNUSED)
    }

    pub fn refused_at(number: u64, rec: u64, item: u64, code: u64) -> Self
        ensures { result ≡ refused_at number rec item code }
    {
        Answer {
            number,
            rec,
            item,
            code,
            ..Answer::ACCEPTED
        }
    }

    // What is told of a result of any kind.
    pub fn of<T: Copy>(told: Result<T, Refusal>) -> Self
        ensures { result ≡ answer_of told }
    {
        match told {
            Ok(_) => Answer::ACCEPTED,
            Err(refusal) => refusal.into(),
        }
    }

    // The same of two files.
    pub fn of_two<T: Copy>(told: Result<T, OfTwo>) -> Self
        ensures { result ≡ answer_of_two told }
    {
        match told {
            Ok(_) => Answer::ACCEPTED,
            Err(refusal) => refusal.into(),
        }
    }

    // The answer, as one about one side of a pair.
    fn on_side(self, side: u64) -> Self
        ensures { result ≡ on_side side self }
    {
        Answer { side, ..self }
    }
}

impl From<Refusal> for Answer {
    ghost from_gives = { λ refusal answer. answer ≡ told_by refusal };

    fn from(refusal: Refusal) -> Self {
        match refusal {
            Refusal::UnknownKind => Answer::refused(1),
            Refusal::Length => Answer::refused(2),
            Refusal::TooMany => Answer::refused(3),
            Refusal::Broken(rec, item, code) => Answer::refused_at(4, rec, item, code),
            Refusal::Disagrees(rec, item) => Answer::item(5, rec, item),
            Refusal::Total(rec, item) => Answer::item(6, rec, item),
            Refusal::Repeated(rec, item) => Answer::item(7, rec, item),
            Refusal::ShortRoom => Answer::refused(8),
            Refusal::Ended => Answer::refused(9),
            Refusal::Headers(item) => Answer::item(12, 0, item),
            Refusal::Unanswered(rec, item) => Answer::item(13, rec, item),
            Refusal::Amount(rec, item) => Answer::item(14, rec, item),
            Refusal::NoRecord => Answer::refused(15),
            Refusal::Lacking(rec) => Answer::item(20, rec, 6),
            Refusal::Foreign(rec) => Answer::item(21, rec, 6),
            Refusal::Unsigned(rec) => Answer::item(22, rec, 13),
            Refusal::PostedBefore => Answer::item(40, 0, 5),
            Refusal::NoMember(rec) => Answer::item(41, rec, 11),
            Refusal::Over(rec) => Answer::item(42, rec, 11),
            Refusal::SamePayer(member) => Answer::item(43, member, 0),
            Refusal::Lonely(rec) => Answer::item(50, rec, 10),
            Refusal::Answers => Answer::refused(51),
            Refusal::Split(rec) => Answer::item(52, rec, 10),
        }
    }
}

impl From<OfTwo> for Answer {
    ghost from_gives = { λ refusal answer. answer ≡ told_of_two refusal };

    fn from(refusal: OfTwo) -> Self {
        match refusal {
            OfTwo::Both(refusal) => refusal.into(),
            OfTwo::First(refusal) => Answer::from(refusal).on_side(1),
            OfTwo::Second(refusal) => Answer::from(refusal).on_side(2),
        }
    }
}
