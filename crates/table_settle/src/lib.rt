// The levels that a domain settles (document 01, "Address to record" step 1).
#![tactic(auto)]

pub mod settle;
