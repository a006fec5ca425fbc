// The contents of a day file: the form, how many bodies, and the name and the length of each.
// Lengths have five digits in form "1" and six in form "2", which is for bodies of more than 99,999 bytes.
ghost use Rattle.std.specs.Prelude.{◌≡◌, [], ◌++◌, ◌≤◌, ◌<◌, ◌&&◌, length, drop, replicate, is_some, IfSome};
ghost use Rattle.laws.specs.Least.{none};
ghost use Rattle.laws.specs.Tabulate.{tabulate};
ghost use Rattle.keys.specs.Stands.{key_in};
ghost use Rattle.keys.specs.Keyed.{key_of};
ghost use Rattle.day.specs.Contents.{width_of, form_for, names_at, most, front, entry_at, width_in, count_in, digits_in, length_in, front_good, table_good, bad_length, form_good, contents_good};
ghost use Rattle.day.specs.Bodies.{size_at};

use keys::keyed::Keys;
use keys::stands::Spacing;
use numbers::base_ten;
use text::{characters, parts};

pub const FORM_ONE: u8 = b'1';

pub const FORM_TWO: u8 = b'2';

// The most bodies.
pub const MOST: usize = 16;

// Bytes of the form and of the count.
pub const FRONT: usize = 3;

// Bytes of a name.
pub const NAME: usize = 8;

// A length of five digits is below the first, and every length below the second.
const FIVE_DIGITS: u64 = 100_000;

pub const END: u64 = 1_000_000;

// The digits of a length in a form.
pub fn width(form: u8) -> usize
    ensures value { result ≡ width_of form }
    ensures upper_bound { result ≤ 6 }
{
    if form == FORM_TWO {
        return 6;
    }
    5
}

// The form for lengths.
pub fn form_for(lengths: &[u64]) -> u8
    ensures { result ≡ form_for (size_at lengths.now) (length lengths.now) }
{
    if lengths.iter().any(|length| FIVE_DIGITS <= *length) {
        return FORM_TWO;
    }
    FORM_ONE
}

// Where the entry of body i + 1 begins, and where the contents of i bodies end.
pub fn entry_at(width: usize, i: usize) -> usize
    requires width_bound { width ≤ 6 }
    requires i_bound { i < 100 }
    ensures { result ≡ entry_at width i }
{
    i * (NAME + width) + FRONT
}

fn front_good(file: &[u8]) -> bool
    ensures { result ≡ front_good file.now }
{
    FRONT <= file.len() && characters::each(b'0', b'9', parts::part(file, 1, 2))
}

// So many entries at the front of a file, each with a length of so many digits.
#[derive(Clone, Copy)]
pub(crate) struct Contents<'a> {
    file: &'a [u8],
    width: usize,
    pub(crate) n: usize,
    ghost by_form: { width ≡ width_in file.now },
    ghost digits: { width ≤ 6 },
    ghost by_count: { n ≡ count_in file.now },
    ghost few: { n ≤ most },
    ghost whole: { entry_at width n ≤ length file.now },
}

impl<'a> Contents<'a> {
    // The entries of a file, where it has a form and a count, the count is not too large, and all of them are there.
    fn entries(file: &'a [u8]) -> Option<Self>
        ensures good { is_some result ≡ (front_good file.now && table_good file.now (count_in file.now)) }
        ensures of { IfSome result (λ c. c.file ≡ file.entry) }
    {
        if !front_good(file) {
            return None;
        }
        let width = width(file[0]);
        let n = base_ten::number(parts::part(file, 1, 2)) as usize;
        if MOST < n || file.len() < entry_at(width, n) {
            return None;
        }
        Some(Contents { file, width, n })
    }

    // Where they end.
    pub(crate) fn end(self) -> usize
        ensures value { result ≡ entry_at self.entry.width self.entry.n }
        ensures upper_bound { result ≤ 227 }
    {
        entry_at(self.width, self.n)
    }

    // The names.
    pub(crate) fn names(self) -> Keys<'a>
        ensures value { key_of result ≡ key_in [] (names_at self.entry.width) self.entry.file.now }
        ensures count { result.n ≡ self.entry.n }
    {
        Keys {
            s: self.file,
            places: &[],
            spacing: Spacing {
                stride: NAME + self.width,
                offset: FRONT,
                size: NAME,
            },
            n: self.n,
        }
    }

    // The digits of a length.
    fn digits(self, i: usize) -> &'a [u8]
        requires { i < self.n }
        ensures value { result.now ≡ digits_in self.entry.file.now i }
        ensures size { length result.now ≡ self.entry.width }
    {
        parts::part(self.file, entry_at(self.width, i) + NAME, self.width)
    }

    fn lengths_good(self) -> bool
        ensures { result ≡ none (bad_length self.entry.file.now) self.entry.n }
    {
        for i in 0..self.n {
            if !characters::each(b'0', b'9', self.digits(i)) {
                return false;
            }
        }
        true
    }

    // The lengths, with nothing behind them.
    pub(crate) fn lengths(self) -> [u64; MOST]
        ensures { result ≡ tabulate (length_in self.entry.file.now) self.entry.n ++ drop self.entry.n (replicate most 0) }
    {
        let mut list = [0; MOST];
        for i in 0..self.n {
            list[i] = base_ten::number(self.digits(i));
        }
        list
    }

    // The form is the one that the lengths need.
    fn form_good(self) -> bool
        ensures { result ≡ form_good self.entry.file.now self.entry.n }
    {
        self.file[0] == form_for(&self.lengths()[..self.n])
    }

    // The contents of a day, where the bytes begin with them.
    pub(crate) fn of(file: &'a [u8]) -> Option<Self>
        ensures good { is_some result ≡ contents_good file.now }
        ensures of { IfSome result (λ c. c.file ≡ file.entry) }
    {
        let contents = Contents::entries(file)?;
        if contents.lengths_good() && contents.form_good() {
            return Some(contents);
        }
        None
    }
}
