// Address to record (document 01, "Address to record").
#![tactic(auto)]

pub mod carrier;
pub mod to_record;
