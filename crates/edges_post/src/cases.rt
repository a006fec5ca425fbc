// A case: its name, what the request is, how many bytes of it are laid, and the same of the result.
use crate::{days, values};
use std::fs::Files;
use std::io;
use std::io::Print;
use words::fields;

// A name up to its first *, with the turn in place of what is left. Its bytes need not be text.
fn tell_name(rt: &impl Print, name: &[u8], turn: usize) -> io::Result<()> {
    let before = fields::head(b'*', name);
    rt.write_all(before)?;
    if before.len() < name.len() {
        return print!(rt; "{turn} ");
    }
    rt.write_all(b" ")
}

fn run(rt: &(impl Files + Print), line: &[u8], turn: usize) -> io::Result<()> {
    let word = |n| fields::field(n, b' ', line);
    days::lay(rt, word(1), values::number(word(2), turn), "request")?;
    days::lay(rt, word(3), values::number(word(4), turn), "result")?;
    tell_name(rt, word(0), turn)?;
    folder::posts::post(rt)
}

// A line that begins with # says what follows, and one that is empty or begins with byte 0 parts. *N before a line is that
// line N times, with the numbers from 0 to N - 1 as the turn.
fn run_line(rt: &(impl Files + Print), line: &[u8]) -> io::Result<()> {
    match line {
        [] | [0 | b'#', ..] => Ok(()),
        [b'*', times @ ..] => {
            for turn in 0..values::number(fields::head(b' ', times), 0) {
                run(rt, fields::tail(b' ', times), turn)?;
            }
            Ok(())
        }
        _ => run(rt, line, 0),
    }
}

// Runs every line of the list.
pub(crate) fn run_all(rt: &(impl Files + Print), list: &[u8]) -> io::Result<()> {
    for line in list.split(|b| *b == b'\n') {
        run_line(rt, line)?;
    }
    Ok(())
}
