// Runs the mailbox reader on the cases in stdin. The cases and what must be printed are made by tests/mailbox_cases.py, which follows
// request 2 by itself and runs nothing of the library.
//
// Standard input is lines, each the length of the buffer in four decimal digits, a space, and a header line's bytes in hexadecimal, since
// it may have any byte:
//   0005 LINE
// Printed of each: the number, the length that is told, the front of the buffer of that length in hexadecimal, whether the rest of the
// buffer is as before (`=`) or not (`!`), the phrase's start and its length, and both once more as `phrase_place` tells them, one space apart.
#![tactic(auto)]

mod case;

use case::run_line;
use cases::lines::lines_of;
use cases::print::Output;
use cases::run::read_and_run;
use std::io;

// Standard input, at most.
const ROOM: usize = 1048576;

fn run(to: &mut Output, s: &[u8]) {
    for line in lines_of(s) {
        run_line(to, line);
    }
}

fn main(rt: HostRuntime) -> io::Result<()> {
    let mut space = [0u8; ROOM];
    read_and_run(rt.stdin(), rt.stdout(), &mut space, run)
}
