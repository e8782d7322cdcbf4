// The public face of Lesogrom: every entry point, and the functions for C. None has a `requires`.
#![tactic(auto)]

pub mod entry;
pub mod exports;
pub mod lists;

ghost use Rattle.gateway.specs.Promises.{Promises, Struct};

use oraddr::record::Record;

// Does nothing: its contract is the page of promises, so that it is proved and checked like any other.
pub fn promises_kept()
    ensures { Promises }
{}

// Does nothing: its contract says of any record that it is one in the sense of the page, so that no promise about records leaves one out.
pub fn is_struct(rec: Record)
    ensures { Struct rec }
{}
