// The day file, put into a lent room: the form, how many bodies, the entries, the bodies.
ghost use Rattle.std.specs.Prelude.{◌≡◌, ◌+◌, ◌≤◌, ◌<◌, length};
ghost use Rattle.laws.specs.Joined.{joined};
ghost use Rattle.laws.specs.Stored.{stored};
ghost use Rattle.day.specs.Contents.{front, entry_at};
ghost use Rattle.day.specs.Bodies.{size_at};
ghost use Rattle.day.specs.Meets.{entry_of};
ghost use Rattle.day_writer.specs.Writing.{name_of, file_for};

use crate::deciding::Given;
use day::contents;
use day::contents::NAME;
use numbers::base_ten;
use text::parts;

// The name and the length of body i + 1.
fn put_entry(given: Given<'_>, i: usize, room: &mut [u8])
    requires i_in_bounds { i < length given.lengths.now }
    requires entries_in_bounds { entry_at given.width (length given.lengths.now) ≤ length room.old }
    ensures { room.new ≡ stored (entry_at given.entry.width i) (entry_of given.entry.width (name_of given.entry.names.now) (size_at given.entry.lengths.now) i) room.old }
{
    let at = contents::entry_at(given.width, i);
    parts::put(room, at, parts::part(given.names, i * NAME, NAME));
    base_ten::put_digits(room, at + NAME, given.width, given.lengths[i]);
}

// Entry after entry, behind the count.
fn put_entries(given: Given<'_>, room: &mut [u8])
    requires { entry_at given.width (length given.lengths.now) ≤ length room.old }
    ensures { room.new ≡ stored front (joined (entry_of given.entry.width (name_of given.entry.names.now) (size_at given.entry.lengths.now)) (length given.entry.lengths.now)) room.old }
{
    for i in 0..given.lengths.len() {
        put_entry(given, i, room);
    }
}

pub(crate) fn put(given: Given<'_>, room: &mut [u8])
    requires { entry_at given.width (length given.lengths.now) + length given.bodies.now ≤ length room.old }
    ensures { room.new ≡ stored 0 (file_for given.entry.names.now given.entry.lengths.now given.entry.bodies.now) room.old }
{
    parts::put(room, 0, &[given.form]);
    base_ten::put_digits(room, 1, 2, given.lengths.len() as u64);
    put_entries(given, room);
    parts::put(room, given.end(), given.bodies);
}
