// What the treasurer is told.
#![tactic(auto)]

pub mod lying;
pub mod of_day;
pub mod of_two;
pub mod refusing;
pub mod told;
