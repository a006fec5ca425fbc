// Whether bytes have the frame of signed evidence.
ghost use Rattle.std.specs.Prelude.{◌≡◌};
ghost use Rattle.signed.specs.Checking.{is_one, holds_sequence, is_signed};

use crate::{heads, values};
use text::parts;

// The object identifier as a value.
const IDENTIFIED: [u8; 11] = [
    0x06, 0x09, 0x2A, 0x86, 0x48, 0x86, 0xF7, 0x0D, 0x01, 0x07, 0x02,
];

// The levels below the outermost three.
const LEVELS: usize = 13;

// s is one value with this tag, its contents not looked at.
fn is_one(tag: u8, s: &[u8]) -> bool
    ensures { result ≡ is_one tag s.now }
{
    parts::byte(s, 0) == tag && heads::framed(s) == Some(s.len())
}

// One value tagged A0 that holds one sequence, and this values.
fn holds_sequence(s: &[u8]) -> bool
    ensures { result ≡ holds_sequence s.now }
{
    if is_one(0xA0, s) {
        let held = parts::rest(s, heads::front(s));
        if is_one(0x30, held) {
            return values::list(parts::rest(held, heads::front(held)), LEVELS);
        }
    }
    false
}

// Bytes of every sort have the frame of signed evidence.
pub fn is_signed(s: &[u8]) -> bool
    ensures { result ≡ is_signed s.now }
{
    if is_one(0x30, s) {
        let held = parts::rest(s, heads::front(s));
        if parts::begins(&IDENTIFIED, held) {
            return holds_sequence(parts::rest(held, 11));
        }
    }
    false
}
