// The rows of a table in order: the order of keys, the place of a key by halving, and a row put in.
#![tactic(auto)]

pub mod compare;
pub mod insert;
pub mod place;
pub mod rows;
