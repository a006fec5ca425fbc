// The list of cases, line by line.
use crate::{pairs, reads, values, writes};
use numbers::base_ten;
use std::io;
use std::io::Print;
use words::fields;

// A line of the list, and the whole list, in which the samples stand.
#[derive(Clone, Copy)]
pub(crate) struct Case<'a> {
    pub(crate) samples: &'a [u8],
    pub(crate) line: &'a [u8],
}

impl<'a> Case<'a> {
    // Word n, counted from 0.
    pub(crate) fn word(self, n: usize) -> &'a [u8] {
        fields::field(n, b' ', self.line)
    }

    // All from word n on.
    pub(crate) fn from_word(self, n: usize) -> &'a [u8] {
        fields::after(n, b' ', self.line)
    }

    // What stands between bars, with n of them before it.
    pub(crate) fn part(self, n: usize) -> &'a [u8] {
        fields::field(n, b'|', self.line)
    }

    // The name, to begin a line with. One that is no text is written here, byte for byte, and leaves nothing to print.
    pub(crate) fn name(self, rt: &impl Print) -> io::Result<&'a str> {
        let name = self.word(1);
        match str::from_utf8(name) {
            Ok(text) => Ok(text),
            Err(_) => {
                rt.write_all(name)?;
                Ok("")
            }
        }
    }

    pub(crate) fn kind(self) -> u64 {
        base_ten::word(self.word(2))
    }

    // The number that word n says.
    pub(crate) fn count(self, n: usize) -> usize {
        values::count(self.word(n))
    }
}

// The first letter of a line says what is done: read, write, write and show, pair. Any other line is not a case.
fn run(rt: &impl Print, case: Case<'_>) -> io::Result<()> {
    match case.line.first() {
        Some(b'r') => reads::run(rt, case),
        Some(b'w' | b's') => writes::run(rt, case),
        Some(b'p') => pairs::run(rt, case),
        _ => Ok(()),
    }
}

// Runs every line.
pub(crate) fn run_all(rt: &impl Print, samples: &[u8]) -> io::Result<()> {
    for line in samples.split(|b| *b == b'\n') {
        run(rt, Case { samples, line })?;
    }
    Ok(())
}
