// The layout of an evidence file, EI13, as constant tables.
#![tactic(auto)]

pub mod by_role;
