// A request file taken apart into what it was written from.
#![tactic(auto)]

pub mod storing;
pub mod taking;
