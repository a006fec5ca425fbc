// Good files of any number of records, made of a sample of the list, and what is changed in them. A sample's lines: how
// many bytes a record has, and where its number stands besides in the serial; a header, three data records, a trailer.
ghost use Rattle.std.specs.Prelude.{◌≤◌, ◌<◌};

use crate::{changes, files, values};
use numbers::base_ten;
use words::fields;

// A sample, and how many bytes a record of it has.
#[derive(Clone, Copy)]
pub(crate) struct Sample<'a> {
    text: &'a [u8],
    size: usize,
    ghost size_bound: { size < 1000000 },
}

impl<'a> Sample<'a> {
    // Sample n of the list, counted from 1.
    fn of(list: &'a [u8], n: usize) -> Self {
        let text = fields::field(n, b'$', list);
        let size = values::count(fields::field(0, b' ', text));
        Sample { text, size }
    }

    fn line(self, n: usize) -> &'a [u8] {
        fields::field(n, b'\n', self.text)
    }

    // Where a record's number stands besides in the serial.
    fn place(self) -> usize
        ensures { result < 1000000 }
    {
        values::count(fields::field(1, b' ', self.text))
    }

    // Where a record begins.
    pub(crate) fn start(self, number: usize) -> usize
        requires { number ≤ 1000000 }
        ensures { result ≤ 1000000000000 }
    {
        number * self.size
    }
}

// Puts the last four of a number's eight digits; the others are the sample's.
fn put_number(file: &mut [u8], at: usize, n: usize)
    requires { at ≤ 10000000000000 }
{
    let digits = [0, 1, 2, 3].map(|d| base_ten::digit_at(n as u64, 4, d));
    files::put(file, at + 4, &digits);
}

// Data record i: the sample's three over and over, each with its own number.
fn put_data(file: &mut [u8], sample: Sample<'_>, i: usize)
    requires { (1 ≤ i) × (i ≤ 1000000) }
{
    let at = sample.start(i);
    files::put(file, at, sample.line((i - 1) % 3 + 2));
    put_number(file, at + 1, i);
    put_number(file, at + sample.place(), i);
}

// Header, n data records, trailer.
fn put_all(file: &mut [u8], sample: Sample<'_>, n: usize)
    requires { n < 1000000 }
{
    files::put(file, 0, sample.line(1));
    for i in 1..n + 1 {
        put_data(file, sample, i);
    }
    files::put(file, sample.start(n + 1), sample.line(5));
}

// The file that words say: the number of its sample, how many data records it has, how many bytes of it are meant, and
// the changes.
pub(crate) fn build<'a>(list: &[u8], said: &[u8], file: &'a mut [u8]) -> &'a [u8] {
    let word = |n| values::count(fields::field(n, b' ', said));
    let sample = Sample::of(list, word(0));
    put_all(file, sample, word(1));
    changes::change_all(file, sample, fields::after(3, b' ', said));
    files::first(file, word(2))
}
