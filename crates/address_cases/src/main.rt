// Runs the cases of `mailaddr` that stand in stdin, and prints what comes of each. The cases and what must be printed are made
// by tests/address_cases.py, which follows document 01 by itself and runs nothing of the library.
//
// Standard input is lines, each a command, a tab and one text or two, a tab between them, in hexadecimal, since a text may have any byte:
//   S TEXT         the shape: 2 or 1, or 0, where the `@` stands, whether the local part is quoted, whether it can be read,
//                  and the unquoted local part
//   C TEXT         the length of the coded form, and as much of it as a DD's value holds
//   D TEXT         the decoded text, or that it does not decode
//   Q TEXT TEXT    the address of a local part's text and a domain
//   P TEXT         how many parts a domain has, whether each is a domain part, and the parts from the right
//   T TEXT TEXT    where the tail that the two share starts in the first, and the tail
#![tactic(auto)]

mod commands;

use cases::lines::lines_of;
use cases::print::Output;
use cases::run::read_and_run;
use commands::run_line;
use std::io;

// Standard input, at most.
const ROOM: usize = 524288;

fn run(to: &mut Output, s: &[u8]) {
    for line in lines_of(s) {
        run_line(to, line);
    }
}

fn main(rt: HostRuntime) -> io::Result<()> {
    let mut space = [0u8; ROOM];
    read_and_run(rt.stdin(), rt.stdout(), &mut space, run)
}
