// A list of rows read: its rows, in order, or the number of its first bad entry.
// The two lists are lent, ROWS_SIZE long, which is asked: an array in the type would ask more of a caller that has slices.
// While rows are added the lists are lent for writing, so that no `Table` can hold them yet: the four travel beside one another, and `Kept` is asked.
ghost use Rattle.std.specs.Prelude.{◌≡◌, ◌*◌, ◌+◌, ◌-◌, ◌<◌, ◌≤◌, SomeIff, length, map};
ghost use Rattle.rowlist.specs.Entries.{entries_from, entries_of, entry_at, entry_size};
ghost use Rattle.table.specs.Lines.{longest_gateway_domain, read_rows};
ghost use Rattle.table.specs.Rows.{RowInside, bare_table, row_at, rows_size, table_at};
ghost use Rattle.table_load.specs.Load.{Adding, Kept, Loading};
ghost use Rattle.rowlist_load.specs.Listed.{EntryReading, entry_line, listed_from};

use mailaddr::domain::is_domain;
use rowlist::{ENTRY_SIZE, RowEntry};
use table::line::{LONGEST_GATEWAY_DOMAIN, LONGEST_ROW_DOMAIN, Row, is_path};
use table::load::{Loaded, Malformed, TableRead};
use table::rows::{Key, MOST_ROWS};
use table_load::load::join_row;

// The kinds of entries: the gateway's, and rows that go one way and the other. They are the tags of a table text's lines.
const GATEWAY_KIND: usize = 71;

const DOMAIN_KIND: usize = 68;

const PATH_KIND: usize = 82;

// Where `len` bytes from `at` on end, if they are in a text of `size` bytes. Both numbers are the caller's: their sum may be too large for
// a number.
fn end_inside(at: usize, len: usize, size: usize) -> Option<usize>
    ensures { SomeIff result (at + len ≤ size) (at + len) }
{
    let end = at.checked_add(len)?;
    if end <= size { Some(end) } else { None }
}

// A list of n entries, five numbers each: the text that they stand in, and their numbers.
#[derive(Clone, Copy)]
struct Entries<'a> {
    text: &'a [u8],
    numbers: &'a [usize],
    n: usize,
    ghost fits: { n * entry_size ≤ length numbers.now },
}

impl Entries<'_> {
    // Entry i.
    fn entry(&self, i: usize) -> RowEntry
        requires { i < self.now.n }
        ensures { result ≡ entry_at self.now.numbers.now (i * entry_size) }
    {
        let at = i * ENTRY_SIZE;
        RowEntry {
            kind: self.numbers[at],
            domain: self.numbers[at + 1],
            domain_len: self.numbers[at + 2],
            path: self.numbers[at + 3],
            path_len: self.numbers[at + 4],
        }
    }
}

// The row of an entry, if it is of a kind and has a domain of at most `most` bytes and a path.
fn read_entry(text: &[u8], entry: RowEntry, kind: usize, most: usize) -> Option<Row>
    requires no_tab { kind ≡ 9 → ⊥ }
    requires most_le_longest_gateway_domain { most ≤ longest_gateway_domain }
    ensures { EntryReading text.now entry kind most result }
{
    if entry.kind != kind {
        return None;
    }
    let domain_end = end_inside(entry.domain, entry.domain_len, text.len())?;
    let path_end = end_inside(entry.path, entry.path_len, text.len())?;
    if most < entry.domain_len || !is_domain(&text[entry.domain..domain_end]) {
        return None;
    }
    if !is_path(text, entry.path, path_end) {
        return None;
    }
    Some(Row {
        domain: entry.domain,
        domain_end,
        path: entry.path,
        path_end,
    })
}

// Adds the row of an entry to the rows of its kind, unless the entry is bad: the table with it.
fn add_entry(
    text: &[u8],
    to_path: &mut [usize],
    to_domain: &mut [usize],
    table: Loaded,
    entry: RowEntry,
) -> Option<Loaded>
    requires to_path_len { length to_path.old ≡ rows_size }
    requires to_domain_len { length to_domain.old ≡ rows_size }
    requires kept { Kept text.now to_path.old to_domain.old table }
    ensures { Adding text.now
        (table_at text.now to_path.old to_domain.old table) (entry_line text.now entry) result
        to_path.new to_domain.new }
{
    if MOST_ROWS <= table.to_path + table.to_domain {
        return None;
    }
    if let Some(row) = read_entry(text, entry, DOMAIN_KIND, LONGEST_ROW_DOMAIN) {
        return join_row(text, to_path, to_domain, table, row, Key::Domain);
    }
    let row = read_entry(text, entry, PATH_KIND, LONGEST_ROW_DOMAIN)?;
    join_row(text, to_path, to_domain, table, row, Key::Path)
}

// Reads the entries behind the gateway's.
fn load_rest(
    entries: &Entries,
    to_path: &mut [usize],
    to_domain: &mut [usize],
    gateway: Row,
) -> TableRead
    requires le_n { 1 ≤ entries.now.n }
    requires to_path_len { length to_path.old ≡ rows_size }
    requires to_domain_len { length to_domain.old ≡ rows_size }
    requires row_inside { RowInside entries.now.text.now gateway }
    ensures { Loading entries.now.text.now
        (read_rows 2 (bare_table (row_at entries.now.text.now gateway))
        (map (entry_line entries.now.text.now) (entries_from entries.now.numbers.now 5 (entries.now.n - 1)))) result
        to_path.new to_domain.new }
{
    let mut table = Loaded {
        gateway,
        to_path: 0,
        to_domain: 0,
    };
    for i in 1..entries.n {
        let entry = entries.entry(i);
        let Some(next) = add_entry(entries.text, to_path, to_domain, table, entry) else {
            return Err(Malformed { line: i + 1 });
        };
        table = next;
    }
    Ok(table)
}

// Reads a list of n entries over a text, which may have any length. The rows go to the two lent lists, each of which has room for all.
pub fn load_entries(
    text: &[u8],
    numbers: &[usize],
    n: usize,
    to_path: &mut [usize],
    to_domain: &mut [usize],
) -> TableRead
    requires entry_size_in_bounds { n * entry_size ≤ length numbers.now }
    requires to_path_len { length to_path.old ≡ rows_size }
    requires to_domain_len { length to_domain.old ≡ rows_size }
    ensures { Loading text.now (listed_from text.now (entries_of numbers.now n)) result
        to_path.new to_domain.new }
{
    if n == 0 {
        return Err(Malformed { line: 1 });
    }
    let entries = Entries { text, numbers, n };
    let entry = entries.entry(0);
    let Some(gateway) = read_entry(text, entry, GATEWAY_KIND, LONGEST_GATEWAY_DOMAIN) else {
        return Err(Malformed { line: 1 });
    };
    load_rest(&entries, to_path, to_domain, gateway)
}
