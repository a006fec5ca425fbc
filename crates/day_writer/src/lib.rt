// A day file written, decided before the first byte is stored.
#![tactic(auto)]

mod deciding;
mod storing;
pub mod writing;
