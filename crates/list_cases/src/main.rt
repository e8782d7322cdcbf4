// Runs the cases of `rowlist_load`: tables given as a lent list of row entries over a text, each loaded, and domains and levels
// looked up in those that are well-formed. The cases and what must be printed are made by tests/list_cases.py, which follows the
// rules by itself and runs nothing of the library.
//
// Standard input is lines, their fields one tab apart:
//   T HEX         the text, in hexadecimal; a new list begins
//   E NUMBERS     its next entry: kind, place and length of the domain, place and length of the path, one space apart
//   L             load the list: prints 7 and the first bad entry, or 0 and how many rows go each way
//   D DOMAIN      the number of the row with the longest domain that is a tail of it, or -
//   P LEVELS      the number of the row with the longest path that begins these eight levels, or -
#![tactic(auto)]

mod entries;

ghost use Rattle.std.specs.Prelude.{◌*◌, ◌<◌, ◌≤◌, length};
ghost use Rattle.rowlist.specs.Entries.{entry_size};

use cases::lines::{line, next_line};
use cases::parts::{front, rest};
use cases::print::Output;
use cases::read::unhex;
use cases::run::read_and_run;
use entries::read_entries;
use rowlist::LIST_ROOM;
use rowlist_load::read::read_list;
use std::io;
use table::rows::ROWS_SIZE;
use table_queries::run_lookups;

// Standard input, at most; a list's text, which may be longer than a table's.
const ROOM: usize = 2097152;

const TEXT_ROOM: usize = 131072;

// What stands behind a list's text: a letter, so that a part that reaches past the text would keep the rules if it were read.
const BEHIND: u8 = b'a';

// Loads a list of n entries, runs the look-ups from `at` on, and returns where the next list's text stands.
fn run_loaded(
    to: &mut Output,
    s: &[u8],
    at: usize,
    text: &[u8],
    numbers: &[usize],
    n: usize,
) -> usize
    requires { n * entry_size ≤ length numbers.now }
    ensures { at ≤ result }
{
    let mut to_path = [0usize; ROWS_SIZE];
    let mut to_domain = [0usize; ROWS_SIZE];
    let read = read_list(text, numbers, n, &mut to_path, &mut to_domain);
    run_lookups(to, s, at, read, b"-")
}

// Reads the entries from `at` on, loads them as a list over a text, runs the look-ups that follow, and returns where the next list's text
// stands.
fn run_list(to: &mut Output, s: &[u8], at: usize, text: &[u8]) -> usize
    ensures { at ≤ result }
{
    let mut numbers = [0usize; LIST_ROOM];
    let read = read_entries(s, at, &mut numbers);
    run_loaded(to, s, read.next, text, &numbers, read.count)
}

// Reads the text that the line at `at` spells into the room for it, runs the list over it, and returns where the next list's text stands.
fn run_text(to: &mut Output, s: &[u8], at: usize, space: &mut [u8]) -> usize
    requires { at < length s.now }
    ensures { at < result }
{
    let n = unhex(space, rest(line(s, at), 2));
    run_list(to, s, next_line(s, at), front(space, n))
}

// Runs the list whose text the line at `at` spells, and returns where the next list's text stands.
fn run_case(to: &mut Output, s: &[u8], at: usize) -> usize
    requires { at < length s.now }
    ensures { at < result }
{
    let mut space = [BEHIND; TEXT_ROOM];
    run_text(to, s, at, &mut space)
}

fn run(to: &mut Output, s: &[u8]) {
    let mut at = 0;
    // while: a case is so many lines as it has, and table_queries tells the place behind them, not lines_of
    while at < s.len() {
        at = run_case(to, s, at);
    }
}

fn main(rt: HostRuntime) -> io::Result<()> {
    let mut space = [0u8; ROOM];
    read_and_run(rt.stdin(), rt.stdout(), &mut space, run)
}
