// Dates on the photos (request 6): X.400's UTCTime and RFC 822's date-time, each way, through one struct.
#![tactic(auto)]

pub mod convert;
pub mod write;
