// The records of one file by their place, and what its data records add up to.
#![tactic(auto)]

pub mod listed;
pub mod quantities;
