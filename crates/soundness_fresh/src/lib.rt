// Labels that no row has, for the candidates of the table check.
#![tactic(auto)]

pub mod fresh;
