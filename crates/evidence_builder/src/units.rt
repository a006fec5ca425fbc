// What a writer is given, one behind the other: items 6 to 12 of a record, then its evidence.
ghost use Rattle.std.specs.Prelude.{◌≡◌, ◌+◌, ◌-◌, ◌≤◌, ◌<◌, length};
ghost use Rattle.evidence_units.specs.Units.{items, said_at};
ghost use Rattle.evidence_builder.specs.Units.{units_in};

use evidence_units::items;
use evidence_units::items::ITEMS;
use kinds::of_files::LIMIT;

// How many bytes are left behind the unit with which the last `left` bytes begin; none where it says more than these.
fn left_behind(x: &[u8], left: usize) -> usize
    requires { left ≤ length x.now }
    ensures { result ≡ left - (items + said_at x.now (length x.now - left)) }
{
    if left < ITEMS {
        return 0;
    }
    left.saturating_sub(ITEMS + items::said(x, x.len() - left))
}

// How many units there are, and one more than the limit where there are more; any bytes.
pub fn count(x: &[u8]) -> usize
    ensures { result ≡ units_in x.now }
{
    let mut left = x.len();
    for i in 0..LIMIT + 1 {
        if left == 0 {
            return i;
        }
        left = left_behind(x, left);
    }
    LIMIT + 1
}
