// One request's outcome, and what all requests add up to.
#![tactic(auto)]

pub mod asking;
pub mod cases;
pub mod sums;
