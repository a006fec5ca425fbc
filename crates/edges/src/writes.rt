// A case of writing: write NAME KIND ROOM DATE,CODE,ITEM6,ITEM7 FILE, whose data records' bodies are written.
use crate::cases::Case;
use crate::told::Told;
use crate::{ROOM, again, files, good, rooms, values};
use builder::heads::Head;
use std::io;
use std::io::Print;
use words::fields;
use writer::writing;

// Writes with the parts of the header that a word says.
fn write(kind: u64, word: &[u8], bodies: &[u8], room: &mut [u8]) -> Told {
    let mut space = [0u8; 4096];
    files::put(&mut space, 0, word);
    let words = files::first(&space, word.len());
    let head = Head {
        date: fields::field(0, b',', words),
        code: fields::field(1, b',', words),
        item6: fields::field(2, b',', words),
        item7: fields::field(3, b',', words),
    };
    Told::of(writing::write(kind, head, bodies, room))
}

// Lends as much of a room as the line says, and tells what became of it.
fn lend(rt: &impl Print, case: Case<'_>, bodies: &[u8], room: &mut [u8]) -> io::Result<()> {
    let lent = case.count(3).min(room.len());
    let room = &mut room[..lent];
    let answer = write(case.kind(), case.word(4), bodies, room);
    rooms::tell(rt, case, answer, room)
}

// Every case has bodies and room of its own, so that none sees another's.
pub(crate) fn run(rt: &impl Print, case: Case<'_>) -> io::Result<()> {
    let said = case.from_word(5);
    let mut file = [0u8; ROOM];
    let mut bodies = [0u8; ROOM];
    let mut room = [rooms::UNTOUCHED; ROOM];
    let bytes = good::build(case.samples, said, &mut file).len();
    let records = values::count(fields::field(1, b' ', said));
    again::put_bodies(values::kind(case.kind()), &file, records, &mut bodies);
    lend(rt, case, files::first(&bodies, bytes), &mut room)
}
