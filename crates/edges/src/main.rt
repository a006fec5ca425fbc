// Builds files at the edge of the rules, reads, writes or pairs them, and prints for each case its name and the answer.
#![tactic(auto)]

mod again;
mod cases;
mod changes;
mod files;
mod good;
mod input;
mod lists;
mod pairs;
mod reads;
mod rooms;
mod told;
mod values;
mod writes;

use std::io;

// Room for all of standard input, and for a file of more records than a file may have.
pub(crate) const ROOM: usize = 327_680;

// The samples and the list of cases stand on standard input, which is held whole.
fn main(rt: HostRuntime) -> io::Result<()> {
    let mut text = [0u8; ROOM];
    let n = input::read_full(&mut rt.stdin(), &mut text);
    cases::run_all(&rt, &text[..n])
}
