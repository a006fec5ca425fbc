// The kinds of consent evidence, with their extensions and sizes.
#![tactic(auto)]

pub mod allowed;
