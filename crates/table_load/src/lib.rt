// Loading a table text: its rows in order, or its first bad line (document 01, "The table text").
#![tactic(auto)]

pub mod load;
pub mod read;
pub mod tables;
