// The face for C: numbers and slices in, numbers out. No rule of its own.
#![tactic(auto)]

pub mod arrive;
pub mod of_boards;
pub mod of_changes;
pub mod of_days;
pub mod of_evidence;
pub mod pairs;
pub mod post;
pub mod read;
pub mod taking;
pub mod walk;
pub mod write;
