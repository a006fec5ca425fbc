// A file of the folder, whole or not at all.
ghost use Rattle.std.specs.Prelude.{◌≤◌, length, IfOk};

use std::fs::{File, Files};
use std::io;
use std::io::Read;

// How many bytes were read until the end, or until buf was full; an error where a read failed, since what came before it is
// a file cut short.
fn read_all(file: &mut impl Read, buf: &mut [u8]) -> io::Result<usize>
    ensures { IfOk result (λ n. n ≤ length buf.new) }
{
    let mut done = 0;
    while done < buf.len() {
        match file.read(&mut buf[done..])? {
            0 => return Ok(done),
            more => done += more,
        }
    }
    Ok(done)
}

// What the file of this name holds, as far as buf holds it; an error where it is missing or cannot be read. A folder opens
// and is then not read.
pub(crate) fn read<'a>(rt: &impl Files, name: &str, buf: &'a mut [u8]) -> io::Result<&'a [u8]>
    ensures { IfOk result (λ file. length file.now ≤ length buf.old) }
{
    let size = read_all(&mut File::open(rt, name)?, buf)?;
    Ok(&buf[..size])
}
