// Bytes put into a file that is being built, and its front.

// The byte that is meant: a word of a case holds no space, and a line of text not every byte.
fn meant(b: u8) -> u8 {
    match b {
        b'_' => b' ',
        b'<' => 0x1F,
        b'^' => 0x7B,
        b'>' => 0x7F,
        b'{' => 0x80,
        b'%' => 0xA0,
        b'&' => 0xA1,
        b'*' => 0xFE,
        b'}' => 0xFF,
        _ => b,
    }
}

// Puts bytes at a place; what would stand past the end is left out.
pub(crate) fn put(file: &mut [u8], at: usize, bytes: &[u8]) {
    if let Some(place) = file.get_mut(at..) {
        for (to, from) in place.iter_mut().zip(bytes) {
            *to = meant(*from);
        }
    }
}

// The file's first bytes; all where it has fewer.
pub(crate) fn first(file: &[u8], bytes: usize) -> &[u8] {
    &file[..bytes.min(file.len())]
}
