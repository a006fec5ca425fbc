// The rows of every record of an evidence file, EI13. A code is its four bytes as one number; "0000" where breaking the rule is refusal 5.
ghost use Rattle.std.specs.Prelude.{◌≡◌};
ghost use Rattle.evidence_rows.specs.Tables.{header_rows, data_rows, trailer_rows};

use kinds::of_files::Own;
use tables::row::{Class, Row};

// No rule of these rows asks for a kind's own name or least amount.
pub const NO_OWN: Own = Own { name: 0, least: 0 };

const NINES: Class = Class::Each(b'9', b'9');

const ZEROS: Class = Class::Each(b'0', b'0');

const SPACES: Class = Class::Each(b' ', b' ');

const DIGITS: Class = Class::Each(b'0', b'9');

const C0000: u32 = 0x3030_3030;

const C0081: u32 = 0x3030_3831;

const C0088: u32 = 0x3030_3838;

const C0089: u32 = 0x3030_3839;

const C0098: u32 = 0x3030_3938;

const C0101: u32 = 0x3031_3031;

const C0102: u32 = 0x3031_3032;

const C9998: u32 = 0x3939_3938;

const HEADER: [Row; 11] = [
    Row(1, 0, 1, Class::Each(b'A', b'A'), C0081),
    Row(1, 1, 1, Class::Each(b'E', b'E'), C0081),
    Row(1, 2, 3, Class::Each(b'1', b'1'), C0081),
    Row(1, 5, 1, Class::Each(b'2', b'2'), C0081),
    Row(2, 6, 2, Class::Each(b'1', b'1'), C0081),
    Row(3, 8, 7, ZEROS, C0081),
    Row(4, 15, 8, Class::LongDate, C9998),
    Row(5, 23, 10, Class::Institution, C0088),
    Row(5, 33, 10, SPACES, C0088),
    Row(6, 43, 7, DIGITS, C0088),
    Row(7, 50, 974, SPACES, C0089),
];

const ORDINARY: [Row; 17] = [
    Row(1, 0, 1, Class::Each(b'A', b'A'), C0081),
    Row(1, 1, 1, Class::Each(b'E', b'E'), C0081),
    Row(1, 2, 3, Class::Each(b'1', b'1'), C0081),
    Row(1, 5, 1, Class::Each(b'2', b'2'), C0081),
    Row(2, 6, 2, Class::Each(b'2', b'2'), C0081),
    Row(3, 8, 7, Class::Serial, C0081),
    Row(4, 15, 10, SPACES, C0089),
    Row(5, 25, 10, Class::Institution, C0088),
    Row(5, 35, 10, SPACES, C0088),
    Row(5, 25, 20, Class::HeaderFrom(23), C0000),
    Row(6, 45, 30, Class::Filled, C0098),
    Row(7, 75, 3, DIGITS, C0088),
    Row(8, 78, 20, Class::Filled, C0098),
    Row(9, 98, 8, Class::LongDate, C9998),
    Row(10, 106, 1, Class::Each(b'1', b'6'), C0101),
    Row(11, 107, 5, Class::Extension, C0102),
    Row(12, 112, 7, DIGITS, C0088),
];

const EXEMPT: [Row; 17] = [
    Row(1, 0, 1, Class::Each(b'A', b'A'), C0081),
    Row(1, 1, 1, Class::Each(b'E', b'E'), C0081),
    Row(1, 2, 3, Class::Each(b'1', b'1'), C0081),
    Row(1, 5, 1, Class::Each(b'2', b'2'), C0081),
    Row(2, 6, 2, Class::Each(b'2', b'2'), C0081),
    Row(3, 8, 7, Class::Serial, C0081),
    Row(4, 15, 10, SPACES, C0089),
    Row(5, 25, 10, Class::Institution, C0088),
    Row(5, 35, 10, SPACES, C0088),
    Row(5, 25, 20, Class::HeaderFrom(23), C0000),
    Row(6, 45, 30, Class::Filled, C0098),
    Row(7, 75, 3, DIGITS, C0088),
    Row(8, 78, 20, Class::Filled, C0098),
    Row(9, 98, 8, Class::LongDate, C9998),
    Row(10, 106, 1, Class::Each(b'1', b'6'), C0101),
    Row(11, 107, 5, SPACES, C0102),
    Row(12, 112, 7, DIGITS, C0088),
];

const TRAILER: [Row; 12] = [
    Row(1, 0, 1, Class::Each(b'A', b'A'), C0081),
    Row(1, 1, 1, Class::Each(b'E', b'E'), C0081),
    Row(1, 2, 3, Class::Each(b'1', b'1'), C0081),
    Row(1, 5, 1, Class::Each(b'2', b'2'), C0081),
    Row(2, 6, 2, Class::Each(b'3', b'3'), C0081),
    Row(3, 8, 7, NINES, C0081),
    Row(4, 15, 10, Class::Institution, C0088),
    Row(4, 25, 10, SPACES, C0088),
    Row(4, 15, 20, Class::HeaderFrom(23), C0000),
    Row(5, 35, 7, DIGITS, C0088),
    Row(6, 42, 10, DIGITS, C0088),
    Row(7, 52, 972, SPACES, C0089),
];

// The header's rows.
pub fn header_rows() -> &'static [Row]
    ensures { result.now ≡ header_rows }
{
    &HEADER
}

// The rows of items 1 to 12 of a data record, by the institution's profile.
pub fn data_rows(partly_exempt: bool) -> &'static [Row]
    ensures { result.now ≡ data_rows partly_exempt }
{
    if partly_exempt {
        return &EXEMPT;
    }
    &ORDINARY
}

// The trailer's rows.
pub fn trailer_rows() -> &'static [Row]
    ensures { result.now ≡ trailer_rows }
{
    &TRAILER
}
