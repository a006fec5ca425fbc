// Parts of a slice, whether two slices hold the same bytes, and bytes stored at a place.
ghost use Rattle.std.specs.Prelude.{◌≡◌, ◌+◌, ◌≤◌, ◌<◌, length, get_or, drop};
ghost use Rattle.laws.specs.Part.{part, same, begins};
ghost use Rattle.laws.specs.Stored.{stored};

// The part of s that begins at start and is size bytes long.
pub fn part(s: &[u8], start: usize, size: usize) -> &[u8]
    requires { start + size ≤ length s.now }
    ensures result_value { result.now ≡ part start size s.now }
    ensures result_len { length result.now ≡ size }
{
    &s[start..start + size]
}

// What s holds from a place on; nothing past its end.
pub fn rest(s: &[u8], from: usize) -> &[u8]
    ensures { result.now ≡ drop from s.now }
{
    &s[from.min(s.len())..]
}

// The byte at a place, or 0 past the end.
pub fn byte(s: &[u8], at: usize) -> u8
    ensures value { result ≡ get_or s.now at 0 }
    ensures upper_bound { result < 256 }
{
    s.get(at).copied().unwrap_or(0)
}

// The two slices hold the same bytes.
pub fn same(a: &[u8], b: &[u8]) -> bool
    ensures { result ≡ same a.now b.now }
{
    a == b
}

// s begins with x.
pub fn begins(x: &[u8], s: &[u8]) -> bool
    ensures { result ≡ begins x.now s.now }
{
    s.starts_with(x)
}

// Stores bytes at a place of a lent slice.
pub fn put(room: &mut [u8], at: usize, bytes: &[u8])
    requires { at + length bytes.now ≤ length room.old }
    ensures { room.new ≡ stored at bytes.now room.old }
{
    room[at..at + bytes.len()].copy_from_slice(bytes);
}
