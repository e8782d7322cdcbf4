// Runs the two mappings of dates on the cases in stdin. The cases and what must be printed are made by tests/date_cases.py, which follows
// request 6 by itself and runs nothing of the library.
//
// Standard input is lines, each a letter, a tab and a text:
//   U TEXT    a UTCTime to a date-time
//   R TEXT    a date-time to a UTCTime
//   u TEXT    a UTCTime to a date-time, in a buffer of each length from 0 on, up to one over the longest text's
//   r TEXT    a date-time to a UTCTime, in the same buffers
// Printed of a text: the number, a tab, and with 0 the text it is mapped to. With u and r, of each buffer: the number, the length that is
// told, and the whole buffer as it then is, one tab apart; before, it is all dots.
#![tactic(auto)]

mod case;
mod print;

use case::run_line;
use cases::lines::lines_of;
use cases::print::Output;
use cases::run::read_and_run;
use std::io;

// Standard input, at most.
const ROOM: usize = 262144;

fn run(to: &mut Output, s: &[u8]) {
    for line in lines_of(s) {
        run_line(to, line);
    }
}

fn main(rt: HostRuntime) -> io::Result<()> {
    let mut space = [0u8; ROOM];
    read_and_run(rt.stdin(), rt.stdout(), &mut space, run)
}
