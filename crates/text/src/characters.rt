// The character classes, all from one search: how many bytes in front a set takes.
#![tactic(auto, unfolding(crate::specs::Characters::within, crate::specs::Characters::letter, crate::specs::Characters::takes, crate::specs::Characters::each, crate::specs::Characters::spaces, crate::specs::Characters::code_text, crate::specs::Characters::filled, crate::specs::Characters::one_byte))]

ghost use Rattle.std.specs.Prelude.{◌≡◌, ◌≤◌, length, drop};
ghost use Rattle.text.specs.declared.characters.Set.TheVariants.{OneByte};
ghost use Rattle.text.specs.Characters.{within, letter, takes, front, each, spaces, code_text, filled, one_byte};

use crate::parts;

// The bytes from a low one to a high one; digits and capitals; or letters of either case, digits and the space.
#[derive(Clone, Copy)]
enum Set {
    From(u8, u8),
    Code,
    OneByte,
}

// The byte is one from low to high.
pub fn within(low: u8, high: u8, b: u8) -> bool
    ensures { result ≡ within low high b }
{
    low <= b && b <= high
}

// A letter of either case.
fn letter(b: u8) -> bool
    ensures { result ≡ letter b }
{
    within(b'A', b'Z', b) || within(b'a', b'z', b)
}

// A letter, a digit or a space.
fn one_byte_character(b: u8) -> bool
    ensures { result ≡ takes OneByte b }
{
    letter(b) || within(b'0', b'9', b) || b == b' '
}

fn takes(set: Set, b: u8) -> bool
    ensures { result ≡ takes set b }
{
    match set {
        Set::From(low, high) => within(low, high, b),
        Set::Code => within(b'0', b'9', b) || within(b'A', b'Z', b),
        Set::OneByte => one_byte_character(b),
    }
}

// How many bytes in front of s the set takes.
fn front(set: Set, s: &[u8]) -> usize
    ensures value { result ≡ front set s.now }
    ensures upper_bound { result ≤ length s.now }
{
    s.iter().position(|b| !takes(set, *b)).unwrap_or(s.len())
}

// Every byte of s is one from low to high.
pub fn each(low: u8, high: u8, s: &[u8]) -> bool
    ensures { result ≡ each low high s.now }
{
    front(Set::From(low, high), s) == s.len()
}

// Only spaces from place n on.
fn spaces_from(s: &[u8], n: usize) -> bool
    ensures { result ≡ spaces (drop n s.now) }
{
    each(b' ', b' ', parts::rest(s, n))
}

// Digits and capitals, then only spaces.
pub fn code_text(s: &[u8]) -> bool
    ensures { result ≡ code_text s.now }
{
    spaces_from(s, front(Set::Code, s))
}

// Code text with at least one character before the spaces.
pub fn filled(s: &[u8]) -> bool
    ensures { result ≡ filled s.now }
{
    let n = front(Set::Code, s);
    n != 0 && spaces_from(s, n)
}

// Every byte of s is a one-byte character: a letter of either case, a digit or a space.
pub fn one_byte(s: &[u8]) -> bool
    ensures { result ≡ one_byte s.now }
{
    front(Set::OneByte, s) == s.len()
}
