// Runs the router on the tables and inputs in data/, each input cut into pieces and answered in the least room. What must come out is what
// an implementation of document 01 that was written apart from this one wrote for the whole input; tests/route_cases.py turns the runs of
// tests/vectors/ into this program's files.
//
// Standard input is lines, two for a run: the name of its table, and that of its input. Printed of each run: its answers.
#![tactic(auto)]

mod feed;

use cases::files::read_file;
use cases::lines::lines_of;
use cases::print::Output;
use cases::run::read_and_run;
use feed::feed;
use std::io;
use std::rt::Files;

// Standard input, at most; an input, at most; a table with one byte too many.
const ROOM: usize = 65536;

const INPUT_ROOM: usize = 131072;

const TABLE_ROOM: usize = 65537;

// Runs the input of a name under the table of a name.
fn run_files(rt: &impl Files, to: &mut Output, table: &[u8], input: &[u8]) {
    let mut table_space = [0u8; TABLE_ROOM];
    let t = read_file(rt, table, &mut table_space);
    let mut input_space = [0u8; INPUT_ROOM];
    let n = read_file(rt, input, &mut input_space);
    feed(to, &table_space[..t], &input_space[..n]);
}

// Runs each pair of names. A table's name with none behind it has no input.
fn run(rt: &impl Files, to: &mut Output, s: &[u8]) {
    let mut table = None;
    for name in lines_of(s) {
        match table {
            Some(of) => {
                run_files(rt, to, of, name);
                table = None;
            }
            None => table = Some(name),
        }
    }
}

fn main(rt: HostRuntime) -> io::Result<()> {
    let mut space = [0u8; ROOM];
    read_and_run(rt.stdin(), rt.stdout(), &mut space, |to, s| run(&rt, to, s))
}
