// The place of a key among the keys of rows in order, by halving.
ghost use Rattle.std.specs.Prelude.{◌≡◌, ◌+◌, ◌*◌, ◌≤◌, ◌<◌, length};
ghost use Rattle.table.specs.Rows.{order_start, places_at};
ghost use Rattle.table_order.specs.Order.{shared};
ghost use Rattle.table_order.specs.Place.{Comparing, Narrowed, PlaceFound, Within, number_in};
ghost use Rattle.table_order.specs.Ranks.{query_of, ranks_of};

use crate::compare::{Compared, compare};
use crate::rows::Rows;
use table::line::Row;
use table::rows::{ORDER, key_of, row_at};

// How far a search came: how many keys are not over the query, and how many ranks the last of them shares with it.
#[derive(Clone, Copy)]
pub struct Place {
    pub at: usize,
    pub shared: usize,
}

// What is left of a search: the keys before `lo` are not over the query, those from `hi` on are; and how many ranks of the query the
// keys beside the two have.
#[derive(Clone, Copy)]
pub struct Range {
    pub lo: usize,
    pub hi: usize,
    pub low: usize,
    pub high: usize,
}

// The row at place k of the order.
pub fn row_in(rows: &[usize], k: usize) -> Row
    requires k_in_bounds { order_start + k < length rows.now }
    requires row_in_bounds { number_in rows.now k * 4 + 4 ≤ length rows.now }
    ensures { result ≡ places_at rows.now (number_in rows.now k) }
{
    row_at(rows, rows[ORDER + k])
}

// The key at place k of the order compared with a query, the first `from` ranks of which are known to be shared.
fn compare_at(rows: &Rows, query: &[u8], k: usize, from: usize) -> Compared
    requires k_lt_n { k < rows.now.n }
    requires from_bound { from ≤ shared (ranks_of rows.now k) (query_of rows.now query.now) }
    ensures { Comparing (ranks_of rows.now k) (query_of rows.now query.now) result }
{
    let place = key_of(row_in(rows.numbers, k), rows.key);
    let a = place.from;
    let b = place.end;
    compare(rows.key, &rows.text[a..b], query, from)
}

// One step of halving: the key in the middle of the range is compared with the query, and half of the range is left.
fn narrow(rows: &Rows, query: &[u8], range: Range) -> Range
    requires within { Within (ranks_of rows.now) rows.now.n (query_of rows.now query.now) range }
    requires lo_lt_hi { range.lo < range.hi }
    ensures { Narrowed (ranks_of rows.now) rows.now.n (query_of rows.now query.now) range result }
{
    let mid = (range.lo + range.hi) / 2;
    let done = compare_at(rows, query, mid, range.low.min(range.high));
    if done.under {
        return Range {
            lo: mid + 1,
            low: done.shared,
            ..range
        };
    }
    Range {
        hi: mid,
        high: done.shared,
        ..range
    }
}

// The place of a query among the keys of rows in order.
pub fn place_key(rows: &Rows, query: &[u8]) -> Place
    ensures { PlaceFound (ranks_of rows.now) rows.now.n (query_of rows.now query.now) result }
{
    let mut range = Range {
        lo: 0,
        hi: rows.n,
        low: 0,
        high: 0,
    };
    // while: std's partition_point keeps nothing of what two keys share, which PlaceFound's `beside` promises and the next comparison starts from
    while range.lo < range.hi {
        range = narrow(rows, query, range);
    }
    Place {
        at: range.lo,
        shared: range.low,
    }
}
