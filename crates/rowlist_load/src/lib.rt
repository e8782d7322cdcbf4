// Loading a table from a lent list of row records, as a table text is loaded (document 01, "The table text").
#![tactic(auto)]

pub mod load;
pub mod read;
