// The canonical test of a record (document 01, "canonical").
#![tactic(auto)]

pub mod canonical;
