// An enrolment request, EB13, beside its evidence, EI13.
#![tactic(auto)]

pub mod comparing;
mod evidenced;
mod headers;
