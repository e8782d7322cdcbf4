// The table text: its lines and its rows (document 01, "The table text").
#![tactic(auto)]

pub mod line;
pub mod load;
pub mod rows;
