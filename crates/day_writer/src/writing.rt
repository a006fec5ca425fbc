// Writing a day file: decided first, then stored.
ghost use Rattle.std.specs.Prelude.{◌≡◌, length};
ghost use Rattle.answers.specs.OfDay.{counted_by};
ghost use Rattle.day_writer.specs.Writing.{write_of, write_after};

use crate::{deciding, storing};
use answers::of_day::OfDay;

// Writes the day file at the front of the room, or says why not and leaves the room as it was.
pub fn write(names: &[u8], lengths: &[u64], bodies: &[u8], room: &mut [u8]) -> Result<usize, OfDay>
    ensures value { counted_by result ≡ write_of names.now lengths.now bodies.now (length room.old) }
    ensures room_after { room.new ≡ write_after names.now lengths.now bodies.now room.old }
{
    let given = deciding::decide(names, lengths, bodies)?;
    let size = given.end() + bodies.len();
    if room.len() < size {
        return Err(OfDay::ShortRoom);
    }
    storing::put(given, room);
    Ok(size)
}
