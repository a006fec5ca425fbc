// The folder that a day lies in.
#![tactic(auto)]

mod files;
pub mod posts;
