// One whole file: its length, its records, its totals, its keys. A file counts whole or not at all.
#![tactic(auto)]

mod judged;
pub mod reading;
pub mod repeats;
mod totals;
