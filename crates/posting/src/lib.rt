// The text that people read.
#![tactic(auto)]

mod lines;
pub mod posting;
mod puts;
