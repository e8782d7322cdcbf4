// Personal names, read and written (document 01, "Address to record" step 3, "Record to address").
#![tactic(auto)]

pub mod name;
