// A value holds a list and a list holds values: a value hands its contents on with one level less, and a list goes from value to
// value, so that calls are nested by the levels alone.
ghost use Rattle.std.specs.Prelude.{◌≡◌};
ghost use Rattle.signed.specs.Checking.{is_list, size_within, some_size};

use crate::heads;
use text::parts;

// How many bytes the value has with which s begins, where so many levels may still be nested.
#[cycle(list_value)]
pub(crate) fn value(s: &[u8], left: usize) -> Option<usize>
    ensures { result ≡ some_size (size_within left s.now) }
{
    if left == 0 {
        return None;
    }
    let size = heads::framed(s)?;
    if heads::list_bit(parts::byte(s, 0)) == 0 {
        return Some(size);
    }
    let front = heads::front(s);
    if list(parts::part(s, front, size - front), left - 1) {
        return Some(size);
    }
    None
}

// s is values one after the other.
#[cycle(list_value)]
pub(crate) fn list(s: &[u8], left: usize) -> bool
    ensures { result ≡ is_list (size_within left) s.now }
{
    let mut more = s;
    while !more.is_empty() {
        let Some(size) = value(more, left) else {
            return false;
        };
        more = parts::rest(more, size);
    }
    true
}
