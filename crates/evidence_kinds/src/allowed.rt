// What may be sent as evidence of each kind.
#![tactic(auto, unfolding(crate::specs::Evidence::small, crate::specs::Evidence::row_of, text::specs::Characters::within))]

ghost use Rattle.std.specs.Prelude.{◌≡◌};
ghost use Rattle.evidence_kinds.specs.Evidence.{small, row_of, extension, most_of};

use text::parts;

// A kind, and the most bytes of it.
#[derive(Clone, Copy)]
pub struct Sized {
    pub kind: u8,
    pub most: u64,
}

// 300 and 10 KByte.
const LARGE: u64 = 307_200;

const SIGNED: u64 = 10_240;

const SIZES: [Sized; 6] = [
    Sized {
        kind: b'1',
        most: LARGE,
    },
    Sized {
        kind: b'2',
        most: SIGNED,
    },
    Sized {
        kind: b'3',
        most: LARGE,
    },
    Sized {
        kind: b'4',
        most: LARGE,
    },
    Sized {
        kind: b'5',
        most: LARGE,
    },
    Sized {
        kind: b'6',
        most: LARGE,
    },
];

// Kinds, each with an extension that it allows: a byte, then small letters and spaces.
const ALLOWED: [[u8; 6]; 28] = [
    *b"1gif  ", *b"1jpg  ", *b"1jpeg ", *b"1pdf  ", *b"1tif  ", *b"2der  ", *b"3gif  ", *b"3jpg  ",
    *b"3jpeg ", *b"3pdf  ", *b"3tif  ", *b"4mp3  ", *b"4wav  ", *b"4wma  ", *b"5mp3  ", *b"5wav  ",
    *b"5wma  ", *b"6gif  ", *b"6jpg  ", *b"6jpeg ", *b"6pdf  ", *b"6png  ", *b"6tif  ", *b"6der  ",
    *b"6mp3  ", *b"6wav  ", *b"6wma  ", *b"6txt  ",
];

// Capitals as small letters.
fn small(byte: u8) -> u8
    ensures { result ≡ small byte }
{
    byte.to_ascii_lowercase()
}

// A kind and an extension as a row of the table.
fn row(kind: u8, item: &[u8]) -> [u8; 6]
    ensures { result ≡ row_of kind item.now }
{
    let [a, b, c, d, e] = [0, 1, 2, 3, 4].map(|i| small(parts::byte(item, i)));
    [kind, a, b, c, d, e]
}

// The kind allows the extension, in letters of any case.
pub fn extension(kind: u8, item: &[u8]) -> bool
    ensures { result ≡ extension kind item.now }
{
    ALLOWED.contains(&row(kind, item))
}

// The most bytes of evidence of the kind; none of another kind.
pub fn most(kind: u8) -> u64
    ensures { result ≡ most_of kind }
{
    SIZES
        .iter()
        .find(|sized| sized.kind == kind)
        .map_or(0, |sized| sized.most)
}
