// What the programs that run cases of a loaded table share: the look-ups that follow it in the input, and what is printed.
#![tactic(auto)]

ghost use Rattle.std.specs.Prelude.{◌≡◌, ◌<◌, ◌≤◌, get_or, length};

use cases::lines::{line, next_line};
use cases::parts::rest;
use cases::print::{Output, say, say_number};
use table::load::{Loaded, Malformed};
use table::rows::Key;
use table_load::tables::Table;
use table_lookup::search::find;

// The letter of a line that a table starts with.
const TABLE: u8 = b'T';

fn print_malformed(to: &mut Output, malformed: Malformed) {
    say(to, b"7 ");
    say_number(to, malformed.line);
    say(to, b"\n");
}

fn print_rows(to: &mut Output, loaded: Loaded) {
    say(to, b"0 ");
    say_number(to, loaded.to_path);
    say(to, b" ");
    say_number(to, loaded.to_domain);
    say(to, b"\n");
}

// Looks a domain up, or levels, which stand as a path does, a tab between each two. Prints the row's number, or `none`.
fn run_query(to: &mut Output, kind: u8, query: &[u8], table: &Table, none: &[u8]) {
    let text = table.text;
    let found = if kind == b'D' {
        find(
            text,
            table.to_path,
            table.loaded.to_path,
            Key::Domain,
            query,
        )
    } else {
        find(
            text,
            table.to_domain,
            table.loaded.to_domain,
            Key::Path,
            query,
        )
    };
    match found {
        Some(i) => say_number(to, i),
        None => say(to, none),
    }
    say(to, b"\n");
}

// Runs the look-ups from `at` on up to the next table's line, and returns where that starts.
fn run_queries(to: &mut Output, s: &[u8], at: usize, table: &Table, none: &[u8]) -> usize
    ensures onward { at ≤ result }
    ensures stops { result < length s.now → get_or s.now result 0 ≡ 84 }
{
    let mut from = at;
    // while: the next line starts where the one before it ends
    while from < s.len() && s[from] != TABLE {
        run_query(to, s[from], rest(line(s, from), 2), table, none);
        from = next_line(s, from);
    }
    from
}

// Prints what reading a table came to. Runs the look-ups from `at` on, if there is one, and returns where the next table's line starts; if
// there is none, `at`.
pub fn run_lookups(
    to: &mut Output,
    s: &[u8],
    at: usize,
    read: Result<Table, Malformed>,
    none: &[u8],
) -> usize
    ensures onward { at ≤ result }
    ensures stops { at < result → result < length s.now → get_or s.now result 0 ≡ 84 }
{
    match read {
        Ok(table) => {
            print_rows(to, table.loaded);
            run_queries(to, s, at, &table, none)
        }
        Err(malformed) => {
            print_malformed(to, malformed);
            at
        }
    }
}
