// Runs the cases of `table`: the tables in data/, each loaded, and domains and levels looked up in those that are well-formed. The
// cases and what must be printed are made by tests/table_cases.py, which follows document 01 by itself and runs nothing of the
// library.
//
// Standard input is lines, their fields one tab apart:
//   T NAME        load the table of that name: prints 7 and the first bad line, or 0 and how many rows go each way
//   D DOMAIN      the number of the row with the longest domain that is a tail of it, or none
//   R LEVELS      the number of the row with the longest path that begins these eight levels, or none
#![tactic(auto)]

ghost use Rattle.std.specs.Prelude.{◌<◌, ◌≤◌, length};

use cases::files::read_file;
use cases::lines::{line, next_line};
use cases::parts::{front, rest};
use cases::print::Output;
use cases::run::read_and_run;
use std::io;
use std::rt::Files;
use table::rows::ROWS_SIZE;
use table_load::read::read_table;
use table_queries::run_lookups;

// Standard input, at most; a table with one byte too many.
const ROOM: usize = 524288;

const TABLE_ROOM: usize = 65537;

// Loads a table, runs the look-ups from `at` on, and returns where the next table's line starts.
fn run_loaded(to: &mut Output, s: &[u8], at: usize, text: &[u8]) -> usize
    ensures { at ≤ result }
{
    let mut to_path = [0usize; ROWS_SIZE];
    let mut to_domain = [0usize; ROWS_SIZE];
    let read = read_table(text, &mut to_path, &mut to_domain);
    run_lookups(to, s, at, read, b"none")
}

// Reads the table that the line at `at` names into the room for it, runs the look-ups that follow it, and returns where the next table's line
// starts.
fn run_read(rt: &impl Files, to: &mut Output, s: &[u8], at: usize, space: &mut [u8]) -> usize
    requires { at < length s.now }
    ensures { at < result }
{
    let n = read_file(rt, rest(line(s, at), 2), space);
    run_loaded(to, s, next_line(s, at), front(space, n))
}

// Runs the table that the line at `at` names, and returns where the next table's line starts.
fn run_table(rt: &impl Files, to: &mut Output, s: &[u8], at: usize) -> usize
    requires { at < length s.now }
    ensures { at < result }
{
    let mut space = [0u8; TABLE_ROOM];
    run_read(rt, to, s, at, &mut space)
}

fn run(rt: &impl Files, to: &mut Output, s: &[u8]) {
    let mut at = 0;
    // while: a case is so many lines as it has, and table_queries tells the place behind them, not lines_of
    while at < s.len() {
        at = run_table(rt, to, s, at);
    }
}

fn main(rt: HostRuntime) -> io::Result<()> {
    let mut space = [0u8; ROOM];
    read_and_run(rt.stdin(), rt.stdout(), &mut space, |to, s| run(&rt, to, s))
}
