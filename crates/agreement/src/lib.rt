// What one result record may say of its request.
#![tactic(auto)]

mod amounts;
mod items;
pub mod meeting;
