// The look-up among rows in order: the row whose key is the longest that begins a query by whole tokens. The greatest key that is not over
// the query is the answer if it begins it; if not, the search goes on before it for the tokens that the two share, since every key that
// begins the query begins that one too.
ghost use Rattle.std.specs.Prelude.{◌≡◌, ◌≤◌, eqb, length, get_or, take};
ghost use Rattle.table_order.specs.Order.{closed, spell_by};
ghost use Rattle.table_order.specs.Place.{Sorted};
ghost use Rattle.table_order.specs.Ranks.{query_of};
ghost use Rattle.table_lookup.specs.Looked.{Looked};
ghost use Rattle.table_lookup.specs.Search.{Searched, Whole, by_key, closed_of, tokens_by};

use table::rows::{Key, ORDER};
use table_order::compare::{byte_by, separator_of};
use table_order::insert::key_size;
use table_order::place::place_key;
use table_order::rows::Rows;

// Whether a token of a query ends behind its first k bytes: there a separator stands, or nothing.
fn is_end(key: Key, query: &[u8], k: usize) -> bool
    requires { k ≤ length query.now }
    ensures { result ≡ eqb (get_or (spell_by key query.now) k 0) 0 }
{
    if k == query.len() {
        return true;
    }
    byte_by(key, query, k) == separator_of(key)
}

// The length of the longest front by whole tokens that has at most n bytes, if there is one.
fn whole_front(key: Key, query: &[u8], n: usize) -> Option<usize>
    requires { n ≤ length query.now }
    ensures { Whole (spell_by key query.now) n result }
{
    for k in (0..n + 1).rev() {
        if is_end(key, query, k) {
            return Some(k);
        }
    }
    None
}

// The first k bytes of a query, from the side that keys are compared from.
fn front_of(key: Key, query: &[u8], k: usize) -> &[u8]
    requires { k ≤ length query.now }
    ensures { spell_by key result.now ≡ take k (spell_by key query.now) }
{
    match key {
        Key::Domain => {
            let from = query.len() - k;
            &query[from..]
        }
        Key::Path => &query[..k],
    }
}

// The place in the order of the longest key that begins a query by whole tokens.
fn search(rows: &Rows, query: &[u8]) -> Option<usize>
    ensures { Searched (closed_of rows.now) rows.now.n (closed (query_of rows.now query.now)) result }
{
    let place = place_key(rows, query);
    let at = place.at;
    if at == 0 {
        return None;
    }
    let k = whole_front(rows.key, query, place.shared)?;
    if key_size(rows.numbers, at - 1, rows.key) == k {
        return Some(at - 1);
    }
    let before = Rows {
        text: rows.text,
        numbers: rows.numbers,
        n: at - 1,
        key: rows.key,
    };
    let rest = front_of(rows.key, query, k);
    search(&before, rest)
}

// The row of the first n whose key is the longest that begins a query by whole tokens, as a plain scan of them finds it.
pub fn find(text: &[u8], rows: &[usize], n: usize, key: Key, query: &[u8]) -> Option<usize>
    requires { Sorted key text.now rows.now n }
    ensures { Looked (by_key key) text.now rows.now n (tokens_by key query.now) result }
{
    let ordered = Rows {
        text,
        numbers: rows,
        n,
        key,
    };
    let i = search(&ordered, query)?;
    Some(rows[ORDER + i])
}
