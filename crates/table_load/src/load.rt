// A table text read: its rows, in order, or the number of its first bad line.
// The two lists are lent, ROWS_SIZE long, which is asked: an array in the type would ask more of a caller that has slices.
// A row is places without its text, since it stands by value in a loaded table: that it lies in the text is asked beside it.
// While rows are added the lists are lent for writing, so that no `Table` can hold them yet: the four travel beside one another, and `Kept` is asked.
ghost use Rattle.std.specs.Prelude.{◌≡◌, ◌+◌, ◌≤◌, ◌<◌, length};
ghost use Rattle.table.specs.Lines.{loaded_from, most_rows, read_rows};
ghost use Rattle.table.specs.Rows.{RowInside, bare_table, line_at, lines_from, row_at, rows_size, table_at};
ghost use Rattle.table_load.specs.Load.{Adding, Joining, Kept, Loading};

use chars::parts::part_end;
use table::line::{LONGEST_GATEWAY_DOMAIN, LONGEST_ROW_DOMAIN, Row, read_row};
use table::load::{Loaded, Malformed, TableRead};
use table::rows::{Key, MOST_ROWS};
use table_order::insert::add_if_new;

pub const LONGEST_TABLE: usize = 65536;

// Adds a row to those that have its key, unless one of them has the same: the table with it.
pub fn join_row(
    text: &[u8],
    to_path: &mut [usize],
    to_domain: &mut [usize],
    table: Loaded,
    row: Row,
    key: Key,
) -> Option<Loaded>
    requires to_path_len { length to_path.old ≡ rows_size }
    requires to_domain_len { length to_domain.old ≡ rows_size }
    requires kept { Kept text.now to_path.old to_domain.old table }
    requires to_domain_bound { table.to_path + table.to_domain < most_rows }
    requires row_inside { RowInside text.now row }
    ensures { Joining text.now (table_at text.now to_path.old to_domain.old table) key
        (row_at text.now row) result to_path.new to_domain.new }
{
    match key {
        Key::Domain => {
            let n = table.to_path;
            let is_new = add_if_new(text, to_path, n, row, Key::Domain);
            is_new.then_some(Loaded {
                to_path: n + 1,
                ..table
            })
        }
        Key::Path => {
            let n = table.to_domain;
            let is_new = add_if_new(text, to_domain, n, row, Key::Path);
            is_new.then_some(Loaded {
                to_domain: n + 1,
                ..table
            })
        }
    }
}

// Adds the row of the line that starts at `from` and ends at `end` to the rows of its tag, unless the line is bad: the table with it.
fn add_row(
    text: &[u8],
    to_path: &mut [usize],
    to_domain: &mut [usize],
    table: Loaded,
    from: usize,
    end: usize,
) -> Option<Loaded>
    requires to_path_len { length to_path.old ≡ rows_size }
    requires to_domain_len { length to_domain.old ≡ rows_size }
    requires kept { Kept text.now to_path.old to_domain.old table }
    requires from_le_end { from ≤ end }
    requires end_in_bounds { end ≤ length text.now }
    ensures { Adding text.now
        (table_at text.now to_path.old to_domain.old table) (line_at text.now from end) result
        to_path.new to_domain.new }
{
    if MOST_ROWS <= table.to_path + table.to_domain {
        return None;
    }
    if let Some(row) = read_row(text, from, end, b'D', LONGEST_ROW_DOMAIN) {
        return join_row(text, to_path, to_domain, table, row, Key::Domain);
    }
    let row = read_row(text, from, end, b'R', LONGEST_ROW_DOMAIN)?;
    join_row(text, to_path, to_domain, table, row, Key::Path)
}

// Reads the rows behind the gateway's line.
fn load_rows(
    text: &[u8],
    to_path: &mut [usize],
    to_domain: &mut [usize],
    gateway: Row,
    from: usize,
) -> TableRead
    requires to_path_len { length to_path.old ≡ rows_size }
    requires to_domain_len { length to_domain.old ≡ rows_size }
    requires row_inside { RowInside text.now gateway }
    requires from_in_bounds { from ≤ length text.now }
    ensures { Loading text.now
        (read_rows 2 (bare_table (row_at text.now gateway)) (lines_from text.now from)) result to_path.new to_domain.new }
{
    let mut table = Loaded {
        gateway,
        to_path: 0,
        to_domain: 0,
    };
    let mut at = from;
    let mut line = 2;
    // while: each line starts where the one before it ends, and a bad one stops the reading
    while at < text.len() {
        let end = part_end(text, at, b'\n');
        if end == text.len() {
            return Err(Malformed { line });
        }
        let Some(next) = add_row(text, to_path, to_domain, table, at, end) else {
            return Err(Malformed { line });
        };
        table = next;
        at = end + 1;
        line += 1;
    }
    Ok(table)
}

// Reads a table text. The rows go to the two lent lists, each of which has room for all.
pub fn load(text: &[u8], to_path: &mut [usize], to_domain: &mut [usize]) -> TableRead
    requires to_path_len { length to_path.old ≡ rows_size }
    requires to_domain_len { length to_domain.old ≡ rows_size }
    ensures { Loading text.now (loaded_from text.now) result to_path.new to_domain.new }
{
    if LONGEST_TABLE < text.len() {
        return Err(Malformed { line: 0 });
    }
    let end = part_end(text, 0, b'\n');
    if end == text.len() {
        return Err(Malformed { line: 1 });
    }
    let Some(gateway) = read_row(text, 0, end, b'G', LONGEST_GATEWAY_DOMAIN) else {
        return Err(Malformed { line: 1 });
    };
    load_rows(text, to_path, to_domain, gateway, end + 1)
}
