// Record text by itself, for the public face: a record read from its text, and written.
#![tactic(auto)]

pub mod read;
pub mod write;
