// Numbers that bytes say: in base ten, and four letters as one number.
#![tactic(auto, unfolding(crate::specs::Numbers::digit_of, crate::specs::Numbers::value_of, crate::specs::Numbers::says, crate::specs::Numbers::word_of, crate::specs::Numbers::letter_of, text::specs::Characters::within, text::specs::Characters::digits))]

ghost use Rattle.std.specs.Prelude.{◌≡◌, ◌+◌, ◌≤◌, ◌<◌, length, get_or};
ghost use Rattle.laws.specs.Stored.{stored};
ghost use Rattle.numbers.specs.Numbers.{digit_of, value_of, says, word_of, letter_of, digits_of};

use text::{characters, parts};

// What one byte counts: a digit its number, any other byte 0.
fn digit(b: u8) -> u64
    ensures value { result ≡ digit_of b }
    ensures upper_bound { result ≤ 9 }
{
    match b {
        b'0'..=b'9' => u64::from(b - b'0'),
        _ => 0,
    }
}

// The number that s says in base ten.
pub fn number(s: &[u8]) -> u64
    requires { length s.now ≤ 19 }
    ensures { result ≡ value_of s.now }
{
    let mut n = 0;
    for b in s {
        n = n * 10 + digit(*b);
    }
    n
}

// s is digits, at most 19 of them, that say n.
pub fn says(s: &[u8], n: u64) -> bool
    ensures { result ≡ says s.now n }
{
    s.len() <= 19 && characters::each(b'0', b'9', s) && number(s) == n
}

// The first four bytes of s as one number, the first of them highest.
pub fn word(s: &[u8]) -> u64
    ensures { result ≡ word_of s.now }
{
    u64::from(u32::from_be_bytes([0, 1, 2, 3].map(|i| parts::byte(s, i))))
}

// Letter d of a word: the four bytes again.
pub fn letter(word: u64, d: usize) -> u8
    ensures { result ≡ letter_of word d }
{
    word.to_be_bytes()[4 + d.min(3)]
}

// Digit d, from the left, of the w digits of n; nothing past them.
pub fn digit_at(n: u64, w: usize, d: usize) -> u8
    requires { w < 1000 }
    ensures { result ≡ get_or (digits_of w n) d 0 }
{
    if w <= d {
        return 0;
    }
    let mut rest = n;
    for _ in d + 1..w {
        rest /= 10;
    }
    b'0' + (rest % 10) as u8
}

// Stores the w digits of n at a place of a lent slice.
pub fn put_digits(room: &mut [u8], at: usize, w: usize, n: u64)
    requires w_bound { w < 1000 }
    requires w_in_bounds { at + w ≤ length room.old }
    ensures { room.new ≡ stored at (digits_of w n) room.old }
{
    for i in 0..w {
        room[at + i] = digit_at(n, w, i);
    }
}
