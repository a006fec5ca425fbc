// Which record answers which, and what each request asks, takes and does not take.
#![tactic(auto)]

pub mod amounts;
pub mod lookup;
