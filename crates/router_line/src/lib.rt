// One line of a run and its answer (document 01, "The program `orroute`").
#![tactic(auto)]

pub mod line;
