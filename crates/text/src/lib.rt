// Characters and parts of slices of bytes of every sort. Knows no record.
#![tactic(auto)]

pub mod characters;
pub mod parts;
pub mod passbook;
