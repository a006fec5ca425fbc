// Record after record of one file: the walk on a plain slice and a place, and a walker that holds both.
#![tactic(auto)]

pub mod walker;
pub mod walking;
