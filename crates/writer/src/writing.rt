// Writing a request file: 1, 2, 3, 8, then as reading the file to be written.
ghost use Rattle.std.specs.Prelude.{◌≡◌, ◌<◌, length};
ghost use Rattle.answers.specs.Refusing.{answer_of};
ghost use Rattle.builder.specs.Records.{given};
ghost use Rattle.writer.specs.Writing.{parts_fit, write_as, after_as, write_of, room_after};

use crate::deciding;
use answers::refusing::Refusal;
use builder::files;
use builder::heads::Head;
use kinds::of_files;
use kinds::of_files::{Fixed, Kind, LIMIT};

// Every part is as long as its item, and the bodies are whole.
#[tactic(auto, unfolding(crate::specs::Writing::parts_fit))]
fn parts_fit(fixed: Fixed, head: Head, bodies: &[u8]) -> bool
    requires { 0 < fixed.body }
    ensures { result ≡ parts_fit (given head.entry) bodies.now fixed.item6 fixed.item7 fixed.body }
{
    head.date.len() == 6
        && head.code.len() == 10
        && head.item6.len() == fixed.item6
        && head.item7.len() == fixed.item7
        && bodies.len() % fixed.body == 0
}

// Decides first, then stores.
fn write_as(kind: Kind, head: Head, bodies: &[u8], room: &mut [u8]) -> Result<(), Refusal>
    ensures value { answer_of result ≡ write_as kind (given head.entry) bodies.now (length room.old) }
    ensures room_after { room.new ≡ after_as kind (given head.entry) bodies.now room.old }
{
    let fixed = Fixed::of(kind);
    if !parts_fit(fixed, head, bodies) {
        return Err(Refusal::Length);
    }
    let n = bodies.len() / fixed.body;
    if LIMIT < n {
        return Err(Refusal::TooMany);
    }
    if room.len() < (n + 2) * fixed.size {
        return Err(Refusal::ShortRoom);
    }
    deciding::judge(kind, head, bodies, n)?;
    files::put(kind, head, bodies, n, room);
    Ok(())
}

// Writes a file of the kind into the room, or says why not and leaves the room as it was.
pub fn write(kind: u64, head: Head, bodies: &[u8], room: &mut [u8]) -> Result<(), Refusal>
    ensures value { answer_of result ≡ write_of kind (given head.entry) bodies.now (length room.old) }
    ensures room_after { room.new ≡ room_after kind (given head.entry) bodies.now room.old }
{
    let Some(request) = of_files::request_of(kind) else {
        return Err(Refusal::UnknownKind);
    };
    write_as(request, head, bodies, room)
}
