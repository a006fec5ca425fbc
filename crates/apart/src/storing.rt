// A request file taken apart into lent room: 1, then as reading it, then 8.
ghost use Rattle.std.specs.Prelude.{◌≡◌, ◌++◌, ◌+◌, ◌*◌, ◌≤◌, length, drop};
ghost use Rattle.answers.specs.Storing.{stored_by, storing, at_front};
ghost use Rattle.kinds.specs.Kinds.{fixed_of};
ghost use Rattle.records.specs.Records.{data_of};
ghost use Rattle.writer.specs.Apart.{bodies_in};
ghost use Rattle.apart.specs.Taking.{apart_as, stored_as, apart_of, apart_after};

use crate::taking;
use answers::refusing::Refusal;
use kinds::of_files;
use kinds::of_files::{Fixed, Kind};
use reader::reading;
use records::listed;
use text::parts;

// Stores the bodies one behind the other at the front of the room.
fn store(kind: Kind, file: &[u8], room: &mut [u8])
    requires { data_of kind file.now * (fixed_of kind).body ≤ length room.old }
    ensures { room.new ≡ bodies_in kind file.now ++ drop (data_of kind file.now * (fixed_of kind).body) room.old }
{
    let size = Fixed::of(kind).body;
    for i in 0..listed::data_count(kind, file) {
        parts::put(room, i * size, taking::body(kind, file, i));
    }
}

// Refuses first, then stores.
fn take_as(kind: Kind, file: &[u8], room: &mut [u8]) -> Result<usize, Refusal>
    ensures value { stored_by result ≡ storing (apart_as kind file.now (length room.old)) (stored_as kind file.now (length room.old)) }
    ensures room_after { room.new ≡ at_front (stored_as kind file.now (length room.old)) room.old }
{
    reading::read_as(kind, file)?;
    let size = listed::data_count(kind, file) * Fixed::of(kind).body;
    if room.len() < size {
        return Err(Refusal::ShortRoom);
    }
    store(kind, file, room);
    Ok(size)
}

// Takes any bytes apart as a request file and stores its bodies at the front of the room, or says why not and leaves the
// room as it was. `kind` is a kind's four letters as one number.
pub fn take_apart(kind: u64, file: &[u8], room: &mut [u8]) -> Result<usize, Refusal>
    ensures value { stored_by result ≡ apart_of kind file.now (length room.old) }
    ensures room_after { room.new ≡ apart_after kind file.now room.old }
{
    let Some(request) = of_files::request_of(kind) else {
        return Err(Refusal::UnknownKind);
    };
    take_as(request, file, room)
}
