// Items that a rule reads beside its own.
ghost use Rattle.std.specs.Prelude.{◌≡◌, ◌≤◌, ◌<◌, ◌^◌, length};
ghost use Rattle.layout.specs.Items.{amount_of};

use numbers::base_ten;
use text::parts;

// Where the application kind of an enrolment record stands, and the mark and the type of a debit record.
pub const APPLICATION: usize = 25;

pub const MARK: usize = 68;

pub const TYPE: usize = 116;

// The office codes of an enrolment at a bank that are no number: "CHNG" and "CNCL", as one number each.
pub const CHANGE: u64 = 0x4348_4E47;

pub(crate) const CANCEL: u64 = 0x434E_434C;

// The amount of a debit record.
pub fn amount(rec: &[u8]) -> u64
    requires { 55 ≤ length rec.now }
    ensures value { result ≡ amount_of rec.now }
    ensures upper_bound { result < 10 ^ 13 }
{
    base_ten::number(parts::part(rec, 42, 13))
}
