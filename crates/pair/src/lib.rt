// A request meets its result: what was taken of each request, and what was not.
#![tactic(auto)]

mod lists;
pub mod pairing;
mod results;
