// The O/R address record (document 01, "The record"): the table of bounds, the record, and adding attributes.
#![tactic(auto)]

pub mod add;
pub mod bounds;
pub mod record;
pub mod value;
