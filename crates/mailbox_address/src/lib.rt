// The address inside of a mailbox: an addr-spec, and a route in front of it (RFC 822, request 2).
#![tactic(auto)]

pub mod read;
pub mod route;
