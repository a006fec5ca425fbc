// Lays days at the edge of the rules into its folder, posts each as the posting program does, and prints what it is told.
#![tactic(auto)]

mod cases;
mod days;
mod input;
mod values;

use std::io;

// The list of cases stands on standard input.
fn main(rt: HostRuntime) -> io::Result<()> {
    let mut list = [0u8; 16384];
    let n = input::read_full(&mut rt.stdin(), &mut list);
    cases::run_all(&rt, &list[..n])
}
