// Whether the answers to an EB11 can stand: its reading, then 50, 51, 52.
ghost use Rattle.std.specs.Prelude.{◌≡◌};
ghost use Rattle.answers.specs.Refusing.{answer_of};
ghost use Rattle.kinds.specs.Kinds.{EB11};
ghost use Rattle.reader.specs.Meets.{Meets};
ghost use Rattle.changes.specs.Deciding.{answered_told, decided};

use crate::codes;
use crate::others::Enrolled;
use answers::refusing::Refusal;
use keys::chains::LINKS;
use keys::linked::Linked;
use kinds::of_files::Kind;
use reader::{reading, repeats};

// 50, 51, 52 of a file that is accepted.
fn answered_tells(file: &[u8], answers: &[u64]) -> Result<(), Refusal>
    requires { Meets EB11 file.now }
    ensures { answer_of result ≡ answered_told file.now answers.now }
{
    let keys = repeats::keys_of(Kind::EB11, file);
    let mut links = [0u16; LINKS];
    keys.chain(&mut links);
    let enrolled = Enrolled {
        file,
        linked: Linked {
            keys,
            links: &links,
        },
    };
    enrolled.changes_tell()?;
    codes::answers_tell(answers, keys.n)?;
    enrolled.splits_tell(answers)
}

// What is told of any bytes as an EB11, and of any answers to it; the room is asked for last, by whoever writes.
pub fn decide(file: &[u8], answers: &[u64]) -> Result<(), Refusal>
    ensures { answer_of result ≡ decided file.now answers.now }
{
    reading::read_as(Kind::EB11, file)?;
    answered_tells(file, answers)
}
