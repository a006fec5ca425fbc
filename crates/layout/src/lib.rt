// One record against its rows.
#![tactic(auto)]

pub mod items;
pub mod judging;
mod rules;
