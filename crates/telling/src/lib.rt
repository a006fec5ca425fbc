// What is told as numbers that are lent: side, number, record, item and code; then what an answer comes with.
#![tactic(auto)]

pub mod answer;
pub mod day;
pub mod outcome;
pub mod part;
pub mod step;
