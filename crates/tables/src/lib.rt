// The tables: rows of a record and their classes, totals, copied items, failure codes and who sets them.
#![tactic(auto)]

pub mod codes;
pub mod copied;
pub mod makers;
pub mod row;
pub mod totals;
