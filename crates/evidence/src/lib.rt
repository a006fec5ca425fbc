// One whole evidence file, EI13: its blocks, its records, its counts, its keys, and where each evidence lies.
#![tactic(auto)]

pub mod blocks;
mod judged;
pub mod lengths;
pub mod lying;
pub mod reading;
pub mod stopping;
pub mod totals;
