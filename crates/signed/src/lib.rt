// The frame of signed evidence, a DER file: values of a tag, a length and contents, nested.
#![tactic(auto)]

pub mod frames;
mod heads;
mod values;
