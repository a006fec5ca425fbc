// The members' board: a lent slice of members, changed by posting. All that is done with one member at a time is in `dues`.
#![tactic(auto)]

mod passing;
pub mod posting;
