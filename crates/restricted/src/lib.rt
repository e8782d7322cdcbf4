// Yards with no quoted strings (request 9): RFC 1137's coding of a local part's unquoted text, and back. (Whether the
// coded text is atoms joined by dots turns on the text's dots and `@`s: `specs/Atoms.antt`.)
#![tactic(auto)]

pub mod code;
pub mod convert;
pub mod parse;
