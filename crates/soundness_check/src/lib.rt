// The table check (document 01, "What comes back").
#![tactic(auto)]

pub mod check;
