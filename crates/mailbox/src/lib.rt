// Header mailboxes: RFC 822's grammar of a mailbox over its lexical tokens, without domain literals. Request 2 of document 02.
#![tactic(auto)]

pub mod entry;
pub mod phrase;
pub mod write;
