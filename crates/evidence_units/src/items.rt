// Items 6 to 12 of a unit.
ghost use Rattle.std.specs.Prelude.{◌≡◌, ◌+◌, ◌≤◌, ◌<◌, length};
ghost use Rattle.evidence_units.specs.Units.{said_at};

use numbers::base_ten;
use text::parts;

// Bytes of items 6 to 12.
pub const ITEMS: usize = 74;

// How many bytes of evidence the unit says that begins at place p.
#[tactic(auto, unfolding(crate::specs::Units::said_at))]
pub fn said(x: &[u8], p: usize) -> usize
    requires { p + 74 ≤ length x.now }
    ensures value { result ≡ said_at x.now p }
    ensures upper_bound { result < 10000000 }
{
    base_ten::number(parts::part(x, p + 67, 7)) as usize
}
