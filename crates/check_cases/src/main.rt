// Runs the table check on the tables in data/. The answers that must come out are of an implementation of document 01 that was written
// apart from this one; tests/check_cases.py turns them into this program's files.
//
// Standard input is lines, each the name of a table. Printed of each: 0; 7 and the first bad line; or 8 and what becomes of the witness
// when both mappings are run on it: `lost` where it is canonical, has a surname (and so is no carrier) and does not come back.
#![tactic(auto)]

mod print;
mod witness;

use cases::files::read_file;
use cases::lines::lines_of;
use cases::parts::front;
use cases::print::Output;
use cases::run::read_and_run;
use print::print_verdict;
use soundness_check::check::check;
use std::io;
use std::rt::Files;

// Standard input, at most; a table with one byte too many.
const ROOM: usize = 65536;

const TABLE_ROOM: usize = 65537;

// Checks a table, and prints what came of it.
fn run_check(to: &mut Output, table: &[u8]) {
    print_verdict(to, table, check(table));
}

// Checks the table of a name, in the room for it.
fn run_read(rt: &impl Files, to: &mut Output, name: &[u8], space: &mut [u8]) {
    let n = read_file(rt, name, space);
    run_check(to, front(space, n));
}

// Checks the table of a name.
fn run_table(rt: &impl Files, to: &mut Output, name: &[u8]) {
    let mut space = [0u8; TABLE_ROOM];
    run_read(rt, to, name, &mut space);
}

fn run(rt: &impl Files, to: &mut Output, s: &[u8]) {
    for name in lines_of(s) {
        run_table(rt, to, name);
    }
}

fn main(rt: HostRuntime) -> io::Result<()> {
    let mut space = [0u8; ROOM];
    read_and_run(rt.stdin(), rt.stdout(), &mut space, |to, s| run(&rt, to, s))
}
