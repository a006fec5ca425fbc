// One day in one file.
ghost use Rattle.std.specs.Prelude.{◌≡◌, length};
ghost use Rattle.day.specs.Reading.{counted_of, shown_of};
ghost use Rattle.day_writer.specs.Writing.{write_of, write_after};
ghost use Rattle.telling.specs.Numbers.{day_eight, day_ten};

use day::reading;
use day_writer::writing;
use telling::day::{tell_body, tell_day};

// Reads the file as one of a day. Returns the day's own number, 0 when accepted.
#[unsafe(no_mangle)]
pub extern "C" fn cms_day_read(file: &[u8], answer: &mut [u64; 8]) -> u64
    ensures value { result ≡ (counted_of file.now).answer.number }
    ensures answer_after { answer.new ≡ day_eight (counted_of file.now) }
{
    let told = reading::read(file);
    tell_day(told, answer)
}

// Where one body lies, by its number. Returns the day's own number, 0 when accepted.
#[unsafe(no_mangle)]
pub extern "C" fn cms_day_body(file: &[u8], body: u64, answer: &mut [u64; 10]) -> u64
    ensures value { result ≡ (shown_of file.now body).answer.number }
    ensures answer_after { answer.new ≡ day_ten (shown_of file.now body) }
{
    let shown = reading::body(file, body);
    tell_body(shown, answer)
}

// Writes a day file into the room, from names of eight bytes, a length for each, and the bodies, one behind the other. Returns
// the day's own number, 0 when accepted; a refusal leaves the room as it was.
#[unsafe(no_mangle)]
pub extern "C" fn cms_day_write(
    names: &[u8],
    lengths: &[u64],
    bodies: &[u8],
    room: &mut [u8],
    answer: &mut [u64; 8],
) -> u64
    ensures value { result ≡ (write_of names.now lengths.now bodies.now (length room.old)).answer.number }
    ensures room_after { room.new ≡ write_after names.now lengths.now bodies.now room.old }
    ensures answer_after { answer.new ≡ day_eight (write_of names.now lengths.now bodies.now (length room.old)) }
{
    let told = writing::write(names, lengths, bodies, room);
    tell_day(told, answer)
}
