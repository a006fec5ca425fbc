// Where keys stand in a slice.
ghost use Rattle.std.specs.Prelude.{◌≡◌, ◌+◌, ◌≤◌, length};
ghost use Rattle.keys.specs.Stands.{start_of, key_in};

use text::parts;

// Key i, of `size` bytes, begins `i * stride + offset` past the place that a list gives for i, and past 0 where it gives none.
// So an empty list is a fixed distance, and a stride of 0 is wherever the list says.
#[derive(Clone, Copy)]
pub struct Spacing {
    pub stride: usize,
    pub offset: usize,
    pub size: usize,
}

// Key i of s, which lies within it, whether others do or not.
pub fn key_in<'a>(s: &'a [u8], places: &[u32], spacing: Spacing, i: usize) -> &'a [u8]
    requires { start_of places.now spacing i + spacing.size ≤ length s.now }
    ensures { result.now ≡ key_in places.now spacing s.now i }
{
    let listed = places.get(i).map_or(0, |at| *at as usize);
    let start = i * spacing.stride + spacing.offset + listed;
    parts::part(s, start, spacing.size)
}
