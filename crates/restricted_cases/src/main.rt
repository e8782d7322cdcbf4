// Runs both ways of restricted on the cases in stdin. The cases and what must be printed are made by tests/restricted_cases.py, which
// follows request 9 by itself and runs nothing of the library.
//
// Standard input is lines, each a letter, a space, the length of the buffer in four decimal digits, a space, and a text in hexadecimal,
// since a text may have any byte:
//   E 0005 TEXT    the text coded
//   D 0005 TEXT    the text read back
// Printed of each: the number, the length that is told, the front of the buffer of that length in hexadecimal, and whether the rest of the
// buffer is as before (`=`) or not (`!`), one space apart.
#![tactic(auto)]

mod case;

use case::run_line;
use cases::lines::lines_of;
use cases::print::Output;
use cases::run::read_and_run;
use std::io;

// Standard input, at most.
const ROOM: usize = 262144;

fn run(to: &mut Output, s: &[u8]) {
    for line in lines_of(s) {
        run_line(to, line);
    }
}

fn main(rt: HostRuntime) -> io::Result<()> {
    let mut space = [0u8; ROOM];
    read_and_run(rt.stdin(), rt.stdout(), &mut space, run)
}
