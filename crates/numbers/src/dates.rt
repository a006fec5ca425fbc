// Dates, YYMMDD for 20YY, and YYYYMMDD.
#![tactic(auto, unfolding(crate::specs::Dates::month_days, crate::specs::Dates::leap_day, crate::specs::Dates::days_of, crate::specs::Dates::has_day, crate::specs::Dates::is_date, crate::specs::Dates::not_later, crate::specs::Dates::is_long_date, text::specs::Characters::digits))]

ghost use Rattle.std.specs.Prelude.{◌≡◌, ◌≤◌, length};
ghost use Rattle.numbers.specs.Dates.{leap_day, days_of, has_day, is_date, not_later, of2000, is_long_date};

use crate::base_ten;
use text::{characters, parts};

// The days of months 00 to 12; there is no month 00, so it has none.
const DAYS: [u64; 13] = [0, 31, 28, 31, 30, 31, 30, 31, 31, 30, 31, 30, 31];

fn leap_day(year: u64, month: u64) -> bool
    ensures { result ≡ leap_day year month }
{
    month == 2 && year % 4 == 0
}

fn days_of(year: u64, month: u64) -> u64
    ensures { result ≡ days_of year month }
{
    if leap_day(year, month) {
        return 29;
    }
    DAYS.get(month as usize).copied().unwrap_or(0)
}

fn has_day(year: u64, month: u64, day: u64) -> bool
    ensures { result ≡ has_day year month day }
{
    1 <= day && day <= days_of(year, month)
}

// s is a date YYMMDD: a month from 01 to 12 and a day that this month has.
pub fn date(s: &[u8]) -> bool
    ensures { result ≡ is_date s.now }
{
    s.len() == 6
        && characters::each(b'0', b'9', s)
        && has_day(
            base_ten::number(parts::part(s, 0, 2)),
            base_ten::number(parts::part(s, 2, 2)),
            base_ten::number(parts::part(s, 4, 2)),
        )
}

// s is a date, not later than the one that t says.
pub fn not_later(s: &[u8], t: &[u8]) -> bool
    requires { length t.now ≤ 19 }
    ensures { result ≡ not_later s.now t.now }
{
    date(s) && base_ten::number(s) <= base_ten::number(t)
}

// s is a date YYYYMMDD of the years 2000 to 2099.
pub fn long_date(s: &[u8]) -> bool
    ensures { result ≡ is_long_date s.now }
{
    s.starts_with(b"20") && date(parts::rest(s, 2))
}
