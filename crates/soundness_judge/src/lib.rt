// One candidate of the table check: made, and judged by both mappings (document 01, "What comes back").
#![tactic(auto)]

pub mod candidate;
pub mod judge;
