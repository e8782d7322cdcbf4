// Runs the cases of `chars` and of the crates of the record that stand in stdin, and prints what comes of each. The cases and what must be
// printed are made by tests/record_cases.py, which follows document 01 by itself and runs nothing of the library.
//
// Standard input is lines, each a letter and bytes in hexadecimal:
//   b    print the classes that have the byte, and its fold
//   w    print the rules on whole texts that the bytes keep
//   r    make a record, and then another; print whether this one is canonical, whether it is the same as the first, and what it holds
// Of `r` the bytes are how many make the first record, in four digits, and commands. A command is the length of what follows, a letter, a
// number, both numbers of four digits, and bytes:
//   c a p o n s g i q    add the bytes as C, ADMD, PRMD, O, CN, S, G, I or GQ; prints the number
//   u, d                 add a unit, or a DD whose type is as many bytes as the number says, and its value the others; prints the number
//   L                    make the length of value k, which is the byte, the number, as a caller may
//   M                    the same of unit k, and where k is 4 of the count of units
//   T                    the same of DD type k, from 4 on of the DD values, and where k is 8 of the count of DDs
// The number 9999 stands for the largest length or count there is.
#![tactic(auto)]

mod commands;
mod print;
mod rules;

use cases::lines::lines_of;
use cases::parts::front;
use cases::print::Output;
use cases::read::unhex;
use cases::run::read_and_run;
use commands::run_record;
use rules::{print_byte, print_text};
use std::io;

// Standard input, at most.
const ROOM: usize = 524288;

// The bytes of a line, at most.
const TEXT: usize = 512;

fn run_case(to: &mut Output, tag: u8, text: &[u8]) {
    match tag {
        b'b' => print_byte(to, text),
        b'w' => print_text(to, text),
        _ => run_record(to, text),
    }
}

fn run_line(to: &mut Output, line: &[u8]) {
    let [tag, digits @ ..] = line else {
        return;
    };
    let mut space = [0u8; TEXT];
    let n = unhex(&mut space, digits);
    run_case(to, *tag, front(&space, n));
}

fn run(to: &mut Output, s: &[u8]) {
    for line in lines_of(s) {
        run_line(to, line);
    }
}

fn main(rt: HostRuntime) -> io::Result<()> {
    let mut space = [0u8; ROOM];
    read_and_run(rt.stdin(), rt.stdout(), &mut space, run)
}
