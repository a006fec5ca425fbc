// Numbers in base ten and dates, on slices of bytes of every sort.
#![tactic(auto)]

pub mod base_ten;
pub mod dates;
