// Two results of one debit request: whether they tell one story, and where not.
#![tactic(auto)]

pub mod comparing;
