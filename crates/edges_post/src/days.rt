// The two files of a day, laid into the folder.
use crate::input;
use std::fs::{Files, OpenFile, Permissions};
use std::io::Write;
use std::os::unix::fs::PermissionsExt;
use std::{fs, io};

// No file here is longer.
const ROOM: usize = 70_000;

// A mode of a file that anyone may read, and of one that nobody may.
const OPEN: u32 = 0o644;

const SHUT: u32 = 0;

// Copies the first bytes of a file, with zeros past its end.
fn copy(rt: &impl Files, from: &[u8], bytes: usize, name: &str, mode: u32) -> io::Result<()> {
    // A name that is no text names no file, and none is opened.
    let from = str::from_utf8(from).unwrap_or("");
    let mut file = [0u8; ROOM];
    input::read_full(&mut fs::open(rt, from)?, &mut file);
    let mut made = fs::create(rt, name)?;
    if let Some(part) = file.get(..bytes) {
        made.write_all(part)?;
    }
    made.set_permissions(Permissions::from_mode(mode))
}

// Lays what a word says under a name: - nothing, / a folder, ! and a file's name that file with no leave to read it, or a
// file's name alone.
pub(crate) fn lay(rt: &impl Files, word: &[u8], bytes: usize, name: &str) -> io::Result<()> {
    // What is not there cannot be removed.
    let _ = fs::remove_file(rt, name);
    let _ = fs::remove_dir(rt, name);
    match word {
        [b'-', ..] => Ok(()),
        [b'/', ..] => fs::create_dir(rt, name),
        [b'!', from @ ..] => copy(rt, from, bytes, name, SHUT),
        _ => copy(rt, word, bytes, name, OPEN),
    }
}
