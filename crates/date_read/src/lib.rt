// A date and time with its zone's offset, and the two forms in which it is read (request 6): X.400's UTCTime and RFC 822's date-time.
#![tactic(auto)]

pub mod date;
pub mod read;
