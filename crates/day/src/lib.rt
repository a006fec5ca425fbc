// One day in one file: its contents, its bodies, and where each body lies.
#![tactic(auto)]

pub mod bodies;
pub mod contents;
pub mod reading;
