// What a word of a case says.
ghost use Rattle.std.specs.Prelude.{◌<◌};

use kinds::of_files;
use kinds::of_files::Kind;
use numbers::base_ten;

// The number that a word of at most nineteen digits says; a longer one says nothing.
pub(crate) fn number(s: &[u8]) -> u64 {
    if s.len() <= 19 {
        return base_ten::number(s);
    }
    0
}

// A number that counts records or bytes; nothing where it is too large.
pub(crate) fn count(s: &[u8]) -> usize
    ensures { result < 1000000 }
{
    match number(s) {
        n @ ..1_000_000 => n as usize,
        _ => 0,
    }
}

// The kind that a name says; EB21 where it is unknown.
pub(crate) fn kind(name: u64) -> Kind {
    of_files::kind_of(name).unwrap_or(Kind::EB21)
}
