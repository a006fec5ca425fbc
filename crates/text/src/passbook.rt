// What a passbook shows of a debit, as a request gives it: sixteen bytes in one of three forms.
#![tactic(auto, unfolding(crate::specs::Characters::two_byte, crate::specs::Passbook::setting, crate::specs::Passbook::two_byte_form, crate::specs::Passbook::one_byte_form, crate::specs::Passbook::mixed_with, crate::specs::Passbook::mixed_form, crate::specs::Passbook::passbook_form))]

ghost use Rattle.std.specs.Prelude.{◌≡◌, ◌≤◌, length};
ghost use Rattle.text.specs.Passbook.{setting, two_byte_form, one_byte_form, mixed_form, passbook_form};

use crate::{characters, parts};

// A mark, then n two-byte characters, then m one-byte characters, and no byte more.
fn setting(mark: &[u8], n: usize, m: usize, s: &[u8]) -> bool
    requires mark_len_bound { length mark.now ≤ 2 }
    requires n_bound { n ≤ 8 }
    requires m_bound { m ≤ 14 }
    ensures { result ≡ setting mark.now n m s.now }
{
    let start = mark.len();
    let end = start + 2 * n;
    s.len() == end + m
        && parts::begins(mark, s)
        && characters::each(0xA1, 0xFE, parts::part(s, start, 2 * n))
        && characters::one_byte(parts::rest(s, end))
}

fn two_byte_form(s: &[u8]) -> bool
    ensures { result ≡ two_byte_form s.now }
{
    setting(b"", 8, 0, s)
}

fn one_byte_form(s: &[u8]) -> bool
    ensures { result ≡ one_byte_form s.now }
{
    setting(b"00", 0, 14, s)
}

fn mixed_form(s: &[u8]) -> bool
    ensures { result ≡ mixed_form s.now }
{
    let digit = parts::byte(s, 1);
    if characters::within(b'2', b'5', digit) {
        let mark = [b'A', digit];
        let k = (digit - b'0') as usize;
        return setting(&mark, k, 14 - 2 * k, s);
    }
    false
}

// One of the three forms.
pub fn passbook_form(s: &[u8]) -> bool
    ensures { result ≡ passbook_form s.now }
{
    two_byte_form(s) || one_byte_form(s) || mixed_form(s)
}
