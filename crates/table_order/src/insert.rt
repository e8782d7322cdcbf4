// A row put behind the others and into their order, at its place by halving, unless one of them has its key.
// A row is places without its text, since it stands by value in a loaded table: that it lies in the text is asked beside it.
ghost use Rattle.std.specs.Prelude.{◌≡◌, ◌-◌, ◌≤◌, ◌<◌, length};
ghost use Rattle.table.specs.Lines.{most_rows};
ghost use Rattle.table.specs.Rows.{RowInside, rows_size};
ghost use Rattle.table_order.specs.Insert.{Inserting, Opened, Reachable, is_last, key_size};
ghost use Rattle.table_order.specs.Place.{Sorted};

use crate::place::{Place, place_key, row_in};
use crate::rows::Rows;
use table::line::Row;
use table::rows::{Key, ORDER, key_of, put_row};

// Opens place k in the order of the first n rows and puts the number n there.
fn insert_at(rows: &mut [usize], n: usize, k: usize)
    requires { (k ≤ n) × (n < most_rows) × (length rows.old ≡ rows_size) }
    ensures { Opened rows.old n k rows.new }
{
    for i in (k..n).rev() {
        rows[ORDER + i + 1] = rows[ORDER + i];
    }
    rows[ORDER + k] = n;
}

// How long the key at place k of the order is.
pub fn key_size(rows: &[usize], k: usize, key: Key) -> usize
    requires { Reachable key rows.now k }
    ensures { result ≡ key_size key rows.now k }
{
    let place = key_of(row_in(rows, k), key);
    place.end - place.from
}

// Whether the last key that is not over a query of this size is the query itself.
#[tactic(auto, using(std::proofs::lemmas::Bool::Decides::nat_tests), unfolding(crate::specs::Insert::is_last))]
fn is_last(rows: &[usize], place: Place, key: Key, size: usize) -> bool
    requires { 0 < place.at → Reachable key rows.now (place.at - 1) }
    ensures { result ≡ is_last key rows.now place size }
{
    0 < place.at && place.shared == size && key_size(rows, place.at - 1, key) == size
}

// Puts a row behind the first n and into their order, unless one of them has its key; whether it did.
pub fn add_if_new(text: &[u8], rows: &mut [usize], n: usize, row: Row, key: Key) -> bool
    requires n_lt_most_rows { n < most_rows }
    requires rows_len { length rows.old ≡ rows_size }
    requires sorted { Sorted key text.now rows.old n }
    requires row_inside { RowInside text.now row }
    ensures { Inserting key text.now rows.old n row result rows.new }
{
    let own = key_of(row, key);
    let from = own.from;
    let end = own.end;
    let ordered = Rows {
        text,
        numbers: rows,
        n,
        key,
    };
    let place = place_key(&ordered, &text[from..end]);
    if is_last(rows, place, key, end - from) {
        return false;
    }
    put_row(rows, n, row);
    insert_at(rows, n, place.at);
    true
}
