// Document 01's cases marked *, as one statement about the definitions that the contracts of the other crates cite.
#![tactic(auto)]

ghost use Rattle.examples.specs.Cases.{EveryCase};

// Does nothing: its contract is the statement, so that it is proved and checked like any other.
pub fn every_case()
    ensures { EveryCase }
{}
