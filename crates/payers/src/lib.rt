// One member of the board at a time: the search for a payer that an earlier member has, and what was taken of a payer by its requests.
#![tactic(auto)]

pub mod members;
pub mod paying;
pub mod seeking;
pub mod turns;
