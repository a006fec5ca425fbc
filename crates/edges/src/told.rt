// What is told of a case.
use answers::refusing::Refusal;
use answers::told::Answer;
use numbers::base_ten;
use outcomes::cases;
use outcomes::cases::Outcome;
use std::fmt;

// A code as its four characters; a space shows as a hyphen.
#[derive(Clone, Copy)]
struct Code(u64);

impl fmt::Display for Code {
    fn fmt<W: fmt::Write>(&self, f: &mut fmt::Formatter<W>) -> fmt::Result {
        for d in 0..4 {
            match base_ten::letter(self.0, d) {
                b' ' => f.write_char('-')?,
                letter => f.write_char(char::from(letter))?,
            }
        }
        Ok(())
    }
}

// An answer: side, number, record, item, code.
#[derive(Clone, Copy)]
pub(crate) struct Told(pub(crate) Answer);

impl Told {
    pub(crate) fn of(told: Result<(), Refusal>) -> Self {
        Told(Answer::of(told))
    }

    pub(crate) fn accepts(self) -> bool {
        self.0.number == 0
    }
}

impl fmt::Display for Told {
    fn fmt<W: fmt::Write>(&self, f: &mut fmt::Formatter<W>) -> fmt::Result {
        let Answer {
            side,
            number,
            rec,
            item,
            code,
        } = self.0;
        let code = Code(code);
        write!(f, "{side} {number} {rec} {item} {code}")
    }
}

// An outcome by its name, then what it carries; the maker by its number.
#[derive(Clone, Copy)]
pub(crate) struct Became(pub(crate) Outcome);

impl fmt::Display for Became {
    fn fmt<W: fmt::Write>(&self, f: &mut fmt::Formatter<W>) -> fmt::Result {
        let [_, taken, not_taken, code, maker] = cases::numbers(self.0);
        let code = Code(code);
        match self.0 {
            Outcome::None => write!(f, "none {maker}"),
            Outcome::Whole(_) => write!(f, "whole {taken} {maker}"),
            Outcome::Part(_, _, _, _) => write!(f, "part {taken} {not_taken} {code} {maker}"),
            Outcome::Refused(_, _, _) => write!(f, "refused {not_taken} {code} {maker}"),
        }
    }
}
