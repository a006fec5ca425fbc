// Members who change banks: the two halves of a change, and whether the answers to an EB11 can stand.
#![tactic(auto)]

mod codes;
pub mod deciding;
mod halves;
mod others;
