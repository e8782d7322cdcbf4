// What a record text names, added to a record (document 01, "Address to record" steps 2 to 4).
#![tactic(auto)]

pub mod build;
