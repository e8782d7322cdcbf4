// The lexical tokens of RFC 822 (section 3.3), without domain literals: white space, comments, quoted strings, atoms and specials, and how
// deep the comments of a line nest. Request 2 of document 02.
#![tactic(auto)]

pub mod comment;
pub mod nesting;
pub mod quoted;
pub mod space;
pub mod token;
