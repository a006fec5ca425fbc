// The room that is lent to a writing, and what is told of it.
ghost use Rattle.std.specs.Prelude.{◌≤◌, length};

use crate::cases::Case;
use crate::told::Told;
use crate::{again, values};
use kinds::of_files::Kind;
use reader::reading;
use records::listed;
use std::io;
use std::io::Print;

// What every place of the room holds before it is lent: no file ends with it.
pub(crate) const UNTOUCHED: u8 = 0x81;

// All up to the last byte that is not as it was.
fn written(room: &[u8]) -> &[u8]
    ensures { length result.now ≤ length room.now }
{
    match room.iter().rposition(|b| *b != UNTOUCHED) {
        Some(last) => &room[..last + 1],
        None => &[],
    }
}

// The records of a file, a line for each.
fn tell_records(rt: &impl Print, kind: Kind, file: &[u8]) -> io::Result<()> {
    for i in 0..listed::count(kind, file) {
        rt.write_all(listed::record_of(kind, file, i))?;
        println!(rt)?;
    }
    Ok(())
}

// Of a file that was written: what reading it says, reading all of it but its last byte, and whether it is the same when
// it is taken apart and written again.
fn tell_file(rt: &impl Print, kind: u64, file: &[u8]) -> io::Result<()> {
    let whole = Told::of(reading::read(kind, file));
    print!(rt; " whole {whole}")?;
    if let Some((_, front)) = file.split_last() {
        let cut = Told::of(reading::read(kind, front));
        print!(rt; " cut {cut}")?;
    }
    let again = if again::same(kind, file) {
        "same"
    } else {
        "other"
    };
    print!(rt; " again {again}")
}

// How much of the room was left alone, and what was written into it.
pub(crate) fn tell(rt: &impl Print, case: Case<'_>, answer: Told, room: &[u8]) -> io::Result<()> {
    let file = written(room);
    let name = case.name(rt)?;
    let kept = room.len() - file.len();
    print!(rt; "{name} {answer} kept {kept}")?;
    if answer.accepts() {
        tell_file(rt, case.kind(), file)?;
    }
    println!(rt)?;
    if case.line.starts_with(b"s") {
        tell_records(rt, values::kind(case.kind()), file)?;
    }
    Ok(())
}
