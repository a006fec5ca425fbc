// What each unit is judged against.
ghost use Rattle.std.specs.Prelude.{◌≡◌, length};

// The institution's profile, the header that would be written, and the institution code.
#[derive(Clone, Copy)]
pub(crate) struct Against<'a> {
    pub(crate) exempt: bool,
    pub(crate) header: &'a [u8],
    pub(crate) code: &'a [u8],
    ghost header_len: { length header.now ≡ 1024 },
    ghost code_len: { length code.now ≡ 10 },
}
