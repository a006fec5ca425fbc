// An evidence file, EI13, written from a date, an institution code and units, decided before the first byte is stored.
#![tactic(auto)]

mod against;
mod deciding;
mod units_tell;
pub mod writing;
