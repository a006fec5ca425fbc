// Keys of one size, at a fixed distance or wherever a list says: the first that repeats an earlier one, and where each of some keys stands among others.
#![tactic(auto)]

pub mod chains;
mod hashes;
pub mod keyed;
pub mod linked;
pub mod stands;
