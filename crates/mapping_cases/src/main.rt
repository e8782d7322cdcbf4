// Runs the cases of `mapping`: the tables in data/, and under each of them addresses mapped to records and records to addresses. The
// cases and what must be printed are made by tests/mapping_cases.py from answers that nothing of the library wrote.
//
// Standard input is lines, a byte and a tab at the front of each:
//   T NAME     take the table of that name
//   A BYTES    an address to a record: prints the number, the first bad line or 0, and the record text, one tab apart
//   O BYTES    four digits and a record text: the record to an address, in a buffer of that length
//   R BYTES    four digits and the parts of a record: the same
// Bytes are written as pairs of hexadecimal digits. What is printed of a record: the first bad line or 0, a tab, and what the call told and
// wrote. How a part is written is said in records.rt.
#![tactic(auto)]

mod print;
mod records;
mod run;

use cases::run::read_and_run;
use run::run;
use std::io;

// Standard input, at most.
const ROOM: usize = 2097152;

fn main(rt: HostRuntime) -> io::Result<()> {
    let mut space = [0u8; ROOM];
    read_and_run(rt.stdin(), rt.stdout(), &mut space, |to, s| run(&rt, to, s))
}
