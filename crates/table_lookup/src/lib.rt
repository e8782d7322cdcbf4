// The rows of a table looked up (document 01, step 1 of "Address to record" and the row part of "Record to address").
#![tactic(auto)]

pub mod extend;
pub mod level;
pub mod levels;
pub mod lookup;
pub mod search;
