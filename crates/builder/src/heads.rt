// What a header is written from.

// The date, the institution code, and items 6 and 7 as they stand in the header.
#[derive(Clone, Copy)]
pub struct Head<'a> {
    pub date: &'a [u8],
    pub code: &'a [u8],
    pub item6: &'a [u8],
    pub item7: &'a [u8],
}
