// A case of reading: read NAME KIND FILE.
use crate::cases::Case;
use crate::told::Told;
use crate::{ROOM, good};
use reader::reading;
use std::io;
use std::io::Print;

// Every case has a file of its own, so that none sees another's bytes.
pub(crate) fn run(rt: &impl Print, case: Case<'_>) -> io::Result<()> {
    let mut room = [0u8; ROOM];
    let file = good::build(case.samples, case.from_word(3), &mut room);
    let name = case.name(rt)?;
    let answer = Told::of(reading::read(case.kind(), file));
    println!(rt; "{name} {answer}")
}
