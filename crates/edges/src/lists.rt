// The two lists that are lent to a pairing.
use std::fmt;

// A place more than a file may have requests.
pub(crate) const PLACES: usize = 2001;

// What every place of a list holds before it is lent: more than any amount.
pub(crate) const UNTOUCHED: u64 = 1_000_000_000_000_000;

// The places of a list, a space before each; a hyphen where one is as it was.
#[derive(Clone, Copy)]
pub(crate) struct List<'a>(pub(crate) &'a [u64]);

impl fmt::Display for List<'_> {
    fn fmt<W: fmt::Write>(&self, f: &mut fmt::Formatter<W>) -> fmt::Result {
        for place in self.0 {
            match *place {
                UNTOUCHED => f.write_str(" -")?,
                n => write!(f, " {n}")?,
            }
        }
        Ok(())
    }
}
