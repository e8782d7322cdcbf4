// What the segments of a record text name, as places in the text (document 01, "Address to record" step 2).
#![tactic(auto)]

pub mod named;
