// The other half of a record in its file, found by the key that it must have.
ghost use Rattle.std.specs.Prelude.{◌≡◌, ◌<◌, [], Some, None, cond, length};
ghost use Rattle.std.specs.Option.{IfSome};
ghost use Rattle.kinds.specs.Kinds.{EB11};
ghost use Rattle.answers.specs.Answers.{first_told};
ghost use Rattle.answers.specs.Refusing.{answer_of};
ghost use Rattle.keys.specs.Stands.{key_in};
ghost use Rattle.keys.specs.Keyed.{key_of};
ghost use Rattle.reader.specs.Keys.{spacing_of};
ghost use Rattle.changes.specs.Halves.{record_in, other_of};
ghost use Rattle.changes.specs.Keyed.{Keyed};
ghost use Rattle.changes.specs.Deciding.{has_other, lonely_told, split_told};

use crate::{codes, halves};
use answers::refusing::Refusal;
use keys::linked::Linked;
use kinds::of_files::Kind;
use records::listed;

// An accepted EB11, its records by their keys.
#[derive(Clone, Copy)]
pub(crate) struct Enrolled<'a> {
    pub file: &'a [u8],
    pub linked: Linked<'a>,
    ghost keyed: { Keyed file.now linked.keys.n linked.links.now },
    ghost spaced: { key_of linked.keys ≡ key_in [] (spacing_of EB11) file.now },
}

impl<'a> Enrolled<'a> {
    // Record i + 1.
    fn record(self, i: usize) -> &'a [u8]
        requires { i < self.linked.keys.n }
        ensures value { result.now ≡ record_in self.entry.file.now i }
        ensures result_len { length result.now ≡ 120 }
    {
        listed::record_of(Kind::EB11, self.file, i + 1)
    }

    // The place of the other half of record i + 1 among the records, where there is one.
    fn other_of(self, i: usize) -> Option<usize>
        requires { i < self.linked.keys.n }
        ensures value { result ≡ cond (has_other self.entry.file.now i) (Some (other_of self.entry.file.now i)) None }
        ensures upper_bound { IfSome result (λ j. j < self.entry.linked.keys.n) }
    {
        let rec = self.record(i);
        let j = self.linked.place(&halves::other_key(rec))?;
        halves::halves(rec, self.record(j)).then_some(j)
    }

    // 50 at record i + 1, where it says "CHNG" and has no other half.
    #[tactic(auto, unfolding(crate::specs::Deciding::lonely_told, crate::specs::Deciding::lonely))]
    fn lonely_tells(self, i: usize) -> Result<(), Refusal>
        requires { i < self.linked.keys.n }
        ensures { answer_of result ≡ lonely_told self.entry.file.now i }
    {
        if halves::changes(self.record(i)) && self.other_of(i).is_none() {
            return Err(Refusal::Lonely((i + 1) as u64));
        }
        Ok(())
    }

    // The first record that says "CHNG" and has no other half.
    pub fn changes_tell(self) -> Result<(), Refusal>
        ensures { answer_of result ≡ first_told (lonely_told self.entry.file.now) self.entry.linked.keys.n }
    {
        for i in 0..self.linked.keys.n {
            self.lonely_tells(i)?;
        }
        Ok(())
    }

    // 52 at record i + 1, where its other half has another answer: a yes against a no.
    #[tactic(auto, unfolding(crate::specs::Deciding::split_told, crate::specs::Deciding::split))]
    fn split_tells(self, answers: &[u64], i: usize) -> Result<(), Refusal>
        requires answers_len { length answers.now ≡ self.linked.keys.n }
        requires i_lt_n { i < self.linked.keys.n }
        ensures { answer_of result ≡ split_told self.entry.file.now answers.now i }
    {
        match self.other_of(i) {
            Some(j) if codes::apart(answers[i], answers[j]) => {
                Err(Refusal::Split((i + 1) as u64))
            }
            _ => Ok(()),
        }
    }

    // The first record whose other half has another answer.
    pub fn splits_tell(self, answers: &[u64]) -> Result<(), Refusal>
        requires { length answers.now ≡ self.linked.keys.n }
        ensures { answer_of result ≡ first_told (split_told self.entry.file.now answers.now) self.entry.linked.keys.n }
    {
        for i in 0..self.linked.keys.n {
            self.split_tells(answers, i)?;
        }
        Ok(())
    }
}
