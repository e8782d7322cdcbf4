// The keys of record text, and its segments (document 01, "Address to record" step 2).
#![tactic(auto)]

pub mod keys;
pub mod scan;
