// A text that is put together, one piece behind the other.
ghost use Rattle.std.specs.Prelude.{◌≡◌, ◌+◌, ◌≤◌, List, [], ◌++◌, ℕ, length, take};
ghost use Rattle.posting.specs.Decimal.{width_of};
ghost use Rattle.posting.specs.Lines.{number_then, code_then};
ghost use Rattle.posting.specs.Posting.{longest};

use crate::posting::LONGEST;
use numbers::base_ten;
use std::marker::Model;
use text::parts;

// The first `size` bytes are the text so far.
#[derive(Drop)]
pub(crate) struct Text {
    bytes: [u8; LONGEST],
    size: usize,
}

impl Model for Text {
    ghost Value = { List ℕ };

    ghost view = { λ t. take t.size t.bytes };

    ghost invariant = { λ t. t.size ≤ longest };
}

impl Text {
    pub(crate) fn new() -> Self
        ensures { result ≡ [] }
    {
        Text {
            bytes: [0; LONGEST],
            size: 0,
        }
    }

    pub(crate) fn as_bytes(&self) -> &[u8]
        ensures { result.now ≡ self.now }
    {
        &self.bytes[..self.size]
    }

    pub(crate) fn put(&mut self, s: &[u8])
        requires { length self.old + length s.now ≤ longest }
        ensures { self.new ≡ self.old ++ s.now }
    {
        parts::put(&mut self.bytes, self.size, s);
        self.size += s.len();
    }

    // A number and what follows it.
    pub(crate) fn put_number(&mut self, n: u64, end: u8)
        requires { length self.old + 21 ≤ longest }
        ensures text { self.new ≡ self.old ++ number_then n end }
        ensures upper_bound { length self.new ≤ length self.old + 21 }
    {
        let w = width(n);
        base_ten::put_digits(&mut self.bytes, self.size, w, n);
        self.size += w;
        self.put(&[end]);
    }

    pub(crate) fn put_code(&mut self, code: u64, end: u8)
        requires { length self.old + 5 ≤ longest }
        ensures text { self.new ≡ self.old ++ code_then code end }
        ensures upper_bound { length self.new ≤ length self.old + 5 }
    {
        self.put(&code_then(code, end));
    }
}

// How many digits n has.
fn width(n: u64) -> usize
    ensures value { result ≡ width_of n }
    ensures upper_bound { result ≤ 20 }
{
    match n.checked_ilog10() {
        Some(tens) => tens as usize + 1,
        None => 1,
    }
}

// A code's four letters and what follows it; a blank code is ----.
fn code_then(code: u64, end: u8) -> [u8; 5]
    ensures { result ≡ code_then code end }
{
    if code == 0x2020_2020 {
        return [b'-', b'-', b'-', b'-', end];
    }
    [
        base_ten::letter(code, 0),
        base_ten::letter(code, 1),
        base_ten::letter(code, 2),
        base_ten::letter(code, 3),
        end,
    ]
}
