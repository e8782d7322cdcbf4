// The library for C: what libgateway.a hands out under the names of docs/include/gateway.h. A crate is a library or an archive, so the functions
// themselves stand in `gateway`, and this crate gives each its symbol.
#![tactic(auto)]

pub mod exports;
pub mod lists;
