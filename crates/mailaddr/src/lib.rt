// Internet addresses (document 01, "Address to record", "Record to address"): the accepted shape, quoting, domains by their
// parts, the coding of a carried address and its decoding, and the tail that two domains share.
#![tactic(auto)]

pub mod code;
pub mod domain;
pub mod shape;
pub mod tail;
