// What stands before, after and between the bytes that part a text.
#![tactic(auto, unfolding(crate::specs::Fields::index_of, crate::specs::Fields::past_of, crate::specs::Fields::head_by, crate::specs::Fields::tail_by, crate::specs::Fields::field_by, laws::specs::Part::part))]

ghost use Rattle.std.specs.Prelude.{◌≡◌, ◌≤◌, ◌<◌, length};
ghost use Rattle.words.specs.Fields.{index_of, past_of, head_by, tail_by, after_by, field_by};

use text::parts;

// How many bytes of s stand before the first b.
fn before(b: u8, s: &[u8]) -> usize
    ensures value { result ≡ index_of b s.now }
    ensures upper_bound { result ≤ length s.now }
{
    s.iter().position(|x| *x == b).unwrap_or(s.len())
}

// How many bytes of s end with the first b; all where there is none.
pub fn past(b: u8, s: &[u8]) -> usize
    ensures value { result ≡ past_of b s.now }
    ensures upper_bound { result ≤ length s.now }
    ensures result_nonzero { 0 < length s.now → 0 < result }
{
    (before(b, s) + 1).min(s.len())
}

// What stands before the first b; all where there is none.
pub fn head(b: u8, s: &[u8]) -> &[u8]
    ensures { result.now ≡ head_by b s.now }
{
    parts::part(s, 0, before(b, s))
}

// What stands after the first b; nothing where there is none.
pub fn tail(b: u8, s: &[u8]) -> &[u8]
    ensures { result.now ≡ tail_by b s.now }
{
    parts::rest(s, past(b, s))
}

// What stands after the first n b's.
pub fn after(n: usize, b: u8, s: &[u8]) -> &[u8]
    ensures { result.now ≡ after_by b s.now n }
{
    let mut left = s;
    for _ in 0..n {
        left = tail(b, left);
    }
    left
}

// What stands between b's and has n of them before it.
pub fn field(n: usize, b: u8, s: &[u8]) -> &[u8]
    ensures { result.now ≡ field_by b s.now n }
{
    head(b, after(n, b, s))
}
