// The rows of a loaded table, kept as numbers: four for each row, the places of its domain and its path in the table text; and behind
// those of all rows their order, the numbers of the rows with the least key first.
// Numbers and no `[Row]`: `places_at`, `Sorted`, `Kept` and `table_at` say what one list of numbers stands for, which callers lend.
ghost use Rattle.std.specs.Prelude.{◌≡◌, ◌+◌, ◌*◌, ◌≤◌, ◌<◌, length};
ghost use Rattle.table.specs.Keys.{key_place};
ghost use Rattle.table.specs.Lines.{most_rows};
ghost use Rattle.table.specs.Rows.{places_at, put_at, rows_size};

use crate::line::Row;

pub const MOST_ROWS: usize = 512;

pub const ROW_SIZE: usize = 4;

// Where the order starts, and the numbers of all rows with it.
pub const ORDER: usize = MOST_ROWS * ROW_SIZE;

pub const ROWS_SIZE: usize = ORDER + MOST_ROWS;

// What no two rows of a list have in common, and what they are ordered by: a domain leads to one path, a path to one domain.
#[derive(Clone, Copy)]
pub enum Key {
    Domain,
    Path,
}

// Where a key stands in the table text.
#[derive(Clone, Copy)]
pub struct KeyPlace {
    pub from: usize,
    pub end: usize,
}

// Where the row's key stands: its domain, or its whole path.
pub fn key_of(row: Row, key: Key) -> KeyPlace
    ensures { result ≡ key_place key row }
{
    match key {
        Key::Domain => KeyPlace {
            from: row.domain,
            end: row.domain_end,
        },
        Key::Path => KeyPlace {
            from: row.path,
            end: row.path_end,
        },
    }
}

// Row i.
pub fn row_at(rows: &[usize], i: usize) -> Row
    requires { i * 4 + 4 ≤ length rows.now }
    ensures { result ≡ places_at rows.now i }
{
    let at = i * ROW_SIZE;
    Row {
        domain: rows[at],
        domain_end: rows[at + 1],
        path: rows[at + 2],
        path_end: rows[at + 3],
    }
}

// Puts a row's places at number i.
pub fn put_row(rows: &mut [usize], i: usize, row: Row)
    requires i_lt_most_rows { i < most_rows }
    requires rows_len { length rows.old ≡ rows_size }
    ensures { rows.new ≡ put_at rows.old i row }
{
    let at = i * ROW_SIZE;
    rows[at] = row.domain;
    rows[at + 1] = row.domain_end;
    rows[at + 2] = row.path;
    rows[at + 3] = row.path_end;
}
