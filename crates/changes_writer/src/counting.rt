// What the refused records of an EB11 add up to.
ghost use Rattle.std.specs.Prelude.{◌≡◌, ◌≤◌, ◌<◌, ◌^◌, length};
ghost use Rattle.changes_writer.specs.Building.{worth_if, refused_of, refused_to, Answered};

use kinds::of_files::Kind;
use records::quantities;
use tables::totals::Quantity;

// An accepted EB11, and an answer for each of its records.
#[derive(Clone, Copy)]
pub(crate) struct Reply<'a> {
    pub file: &'a [u8],
    pub answers: &'a [u64],
    ghost answered: { Answered file.now answers.now },
}

impl Reply<'_> {
    // What record i + 1 adds to a quantity, where it is refused.
    #[tactic(auto, unfolding(crate::specs::Building::worth_if, changes::specs::Answers::says_no, changes::specs::Answers::is_no))]
    fn worth_if(self, quantity: Quantity, i: usize) -> u64
        requires { i < length self.answers.now }
        ensures value { result ≡ worth_if self.entry.file.now self.entry.answers.now quantity i }
        ensures upper_bound { result < 10 ^ 13 }
    {
        if self.answers[i] == 0 {
            0
        } else {
            quantities::worth_at(Kind::EB11, self.file, quantity, i)
        }
    }

    // What all refused records give.
    pub fn refused_of(self, quantity: Quantity) -> u64
        ensures { result ≡ refused_of self.entry.file.now self.entry.answers.now quantity }
    {
        let mut sum = 0;
        for i in 0..self.answers.len() {
            sum += self.worth_if(quantity, i);
        }
        sum
    }

    // How many records are refused.
    #[tactic(auto, using(crate::proofs::Built::refused_all))]
    pub fn refused_count(self) -> usize
        ensures value { result ≡ refused_to self.entry.answers.now (length self.entry.answers.now) }
        ensures upper_bound { result ≤ length self.entry.answers.now }
    {
        self.answers.iter().filter(|answer| **answer != 0).count()
    }
}
