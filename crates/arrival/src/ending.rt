// The end of a file that came in parts: it is told as the reader tells it.
ghost use Rattle.std.specs.Prelude.{◌≡◌};
ghost use Rattle.kinds.specs.Kinds.{kind_of};
ghost use Rattle.answers.specs.Refusing.{answer_of};
ghost use Rattle.arrival.specs.Ending.{end_as, end_named, end_told, state_ended};

use crate::arriving::ENDED;
use crate::counting::count_on;
use answers::refusing::Refusal;
use kinds::of_files;
use kinds::of_files::Kind;
use reader::reading;

// A file of a kind, of which so many bytes lie in the room and so many came past it.
fn end_as(kind: Kind, kept: usize, past: usize, room: &[u8]) -> Result<(), Refusal>
    ensures { answer_of result ≡ end_as kind kept past room.now }
{
    reading::length_tells(kind, count_on(kept, past))?;
    if past != 0 || room.len() < kept {
        return Err(Refusal::ShortRoom);
    }
    reading::read_as(kind, &room[..kept])
}

fn end_named(kind: u64, kept: usize, past: usize, room: &[u8]) -> Result<(), Refusal>
    ensures { answer_of result ≡ end_named (kind_of kind) kept past room.now }
{
    let Some(known) = of_files::kind_of(kind) else {
        return Err(Refusal::UnknownKind);
    };
    end_as(known, kept, past, room)
}

// Ends the file: `kind` is a kind's four letters as one number.
pub fn end(kind: u64, state: &mut [u64; 2], room: &[u8]) -> Result<(), Refusal>
    ensures value { answer_of result ≡ end_told kind state.old room.now }
    ensures state_after { state.new ≡ state_ended state.old }
{
    let [kept, past] = *state;
    if past == ENDED {
        return Err(Refusal::Ended);
    }
    *state = [kept, ENDED];
    end_named(kind, kept as usize, past as usize, room)
}
