// The rows of every record, as constant tables.
#![tactic(auto)]

pub mod by_record;
