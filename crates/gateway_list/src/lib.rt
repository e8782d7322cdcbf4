// The entry points that take a table's rows as a lent list over a text, for the public face.
#![tactic(auto)]

pub mod lists;
pub mod numbers;
pub mod packed;
