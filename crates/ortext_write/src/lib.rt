// Record text and names written from a record (document 01, "Record to address").
#![tactic(auto)]

pub mod write;
