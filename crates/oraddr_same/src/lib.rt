// Whether two records are the same (document 01, "What comes back").
#![tactic(auto)]

pub mod same;
