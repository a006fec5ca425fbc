// The kinds of files and of pairs, each with its own fixed numbers.
#![tactic(auto)]

pub mod of_files;
pub mod of_pairs;
