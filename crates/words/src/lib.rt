// Lines and words of a list of cases: what stands between marks.
#![tactic(auto)]

pub mod fields;
