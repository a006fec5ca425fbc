// The file to be written, made one record at a time in lent bytes.
#![tactic(auto)]

mod building;
mod bytes;
pub mod files;
pub mod heads;
