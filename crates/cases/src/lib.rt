// What the programs that run cases share: the lines of their input and the parts of a line, files, numbers and bytes as a line spells them,
// and what is printed of a call that writes a text into a buffer.
#![tactic(auto)]

pub mod files;
pub mod lines;
pub mod parts;
pub mod print;
pub mod read;
pub mod run;
