// The evidence file EI13, to be written from a date, an institution code and units.
#![tactic(auto)]

pub mod files;
pub mod units;
