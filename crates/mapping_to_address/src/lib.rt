// Record to address (document 01, "Record to address").
#![tactic(auto)]

pub mod carrier;
pub mod levels;
pub mod to_address;
