// How a value begins: its tag and its length.
#![tactic(auto, unfolding(crate::specs::Checking::front_of, crate::specs::Checking::is_shortest))]

ghost use Rattle.std.specs.Prelude.{◌≡◌, ◌+◌, ◌≤◌, length};
ghost use Rattle.signed.specs.Shape.{number_of, list_bit};
ghost use Rattle.signed.specs.Checking.{front_of, said_in, is_shortest, framed_in, some_size};

use text::parts;

// Bit hex 20 of a tag.
pub(crate) fn list_bit(tag: u8) -> u8
    ensures { result ≡ list_bit tag }
{
    tag / 32 % 2
}

// How many bytes tag and length take.
pub(crate) fn front(s: &[u8]) -> usize
    ensures value { result ≡ front_of s.now }
    ensures upper_bound { result ≤ 129 }
{
    2 + usize::from(parts::byte(s, 1).saturating_sub(128))
}

// The number that at most eight bytes say in base 256.
fn number(s: &[u8]) -> usize
    requires { length s.now ≤ 8 }
    ensures { result ≡ number_of s.now }
{
    let mut n = 0;
    for b in s {
        n = n * 256 + usize::from(*b);
    }
    n
}

// How many bytes the length says.
fn said(s: &[u8]) -> usize
    requires s_bound { front_of s.now ≤ 10 }
    requires s_in_bounds { front_of s.now ≤ length s.now }
    ensures { result ≡ said_in s.now }
{
    let first = parts::byte(s, 1);
    if first < 128 {
        return usize::from(first);
    }
    number(parts::part(s, 2, usize::from(first - 128)))
}

// The length, which says so many, has the shortest form.
fn is_shortest(s: &[u8], said: usize) -> bool
    requires { said ≡ said_in s.now }
    ensures { result ≡ is_shortest s.now }
{
    let first = parts::byte(s, 1);
    first < 128 || (first < 255 && parts::byte(s, 2) > 0 && 128 <= said)
}

// How many bytes a tag, its length and as many contents are with which s begins, where it begins so.
pub(crate) fn framed(s: &[u8]) -> Option<usize>
    ensures { result ≡ some_size (framed_in s.now) }
{
    let front = front(s);
    if s.len() < front {
        return None;
    }
    // A length of more than eight bytes is longer than any slice.
    if 10 < front {
        return None;
    }
    if parts::byte(s, 0) % 32 == 31 {
        return None;
    }
    let said = said(s);
    if is_shortest(s, said) && said <= s.len() - front {
        return Some(front + said);
    }
    None
}
