// A file in parts, cut anywhere, and its end: told as the reader tells it of the joined bytes, and nothing before the end.
#![tactic(auto)]

pub mod arriving;
mod counting;
pub mod ending;
