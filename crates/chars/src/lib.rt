// Characters and byte strings: what every layer above is said in. Document 01, "The record", "The table text".
#![tactic(auto)]

pub mod case;
pub mod class;
pub mod digits;
pub mod parts;
pub mod write;
