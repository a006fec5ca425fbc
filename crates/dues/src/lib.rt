// A posting but for the loop over the board: what is told before a member is looked at, from pass to pass, and at the end.
#![tactic(auto)]

pub mod ready;
pub mod steps;
mod taking;
