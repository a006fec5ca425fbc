// What is read of the machine: standard input, or a file.
ghost use Rattle.std.specs.Prelude.{◌≤◌, length};

use std::io::Read;

// How many bytes were read until the end, until room was full or until a read failed.
// Kept: a twin of that of `edges`; shared it would be public, and no clause can say what is read from outside.
pub(crate) fn read_full(from: &mut impl Read, room: &mut [u8]) -> usize
    ensures { result ≤ length room.new }
{
    let mut done = 0;
    while done < room.len()
        && let Ok(more @ 1..) = from.read(&mut room[done..])
    {
        done += more;
    }
    done
}
