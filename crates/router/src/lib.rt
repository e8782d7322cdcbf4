// Runs of lines, in chunks as they arrive (document 01, "The program `orroute`").
#![tactic(auto)]

pub mod run;
