// A request file written: decided before the first byte is stored.
#![tactic(auto)]

mod deciding;
mod keys_built;
mod sums;
pub mod writing;
