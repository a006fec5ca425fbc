// A file taken apart, and written again: the same bytes.
ghost use Rattle.std.specs.Prelude.{◌<◌};

use crate::{ROOM, files, values};
use apart::{storing, taking};
use builder::heads::Head;
use kinds::of_files::{Fixed, Kind};
use writer::writing;

// The bodies of the first n data records, one after the other; of fewer where the file has not so many.
pub(crate) fn put_bodies(kind: Kind, file: &[u8], n: usize, to: &mut [u8])
    requires { n < 1000000 }
{
    let size = Fixed::of(kind).body;
    for i in 0..n {
        files::put(to, i * size, taking::body(kind, file, i));
    }
}

// Whether what the file is taken apart into writes the file.
pub(crate) fn same(name: u64, file: &[u8]) -> bool {
    let kind = values::kind(name);
    let mut bodies = [0u8; ROOM];
    let mut room = [0u8; ROOM];
    let size = storing::take_apart(name, file, &mut bodies).unwrap_or(0);
    let head = Head {
        date: taking::date(kind, file),
        code: taking::code(kind, file),
        item6: taking::item6(kind, file),
        item7: taking::item7(kind, file),
    };
    // A refusal leaves the room as it is, which is then not the file.
    let _ = writing::write(name, head, files::first(&bodies, size), &mut room);
    room.starts_with(file)
}
