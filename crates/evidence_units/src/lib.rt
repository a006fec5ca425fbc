// A unit of consent evidence: items 6 to 12 of a record, and the evidence behind them.
#![tactic(auto)]

pub mod framing;
pub mod items;
