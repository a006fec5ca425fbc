// EB12 written: the refused records of an EB11, and nothing else.
#![tactic(auto)]

mod building;
mod counting;
pub mod writing;
