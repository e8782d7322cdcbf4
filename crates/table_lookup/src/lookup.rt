// The two look-ups: the row with the longest domain that is a tail of a domain by whole parts, and the row with the longest path
// that begins a record's levels; and whether one row's domain is a tail, or its path begins the levels, level by level.
// A path is handed on as its place in the table text, so that its end lies in the text is asked beside it.
// `find_domain` and `find_path` take `text, rows, n` as before: `Rows` holds what a search goes over, and they ask more of the order, `Sorted`.
ghost use Rattle.std.specs.Prelude.{◌≡◌, cond, ◌+◌, ◌≤◌, length, Some, None};
ghost use Rattle.chars.specs.Case.{same_text};
ghost use Rattle.chars.specs.Write.{Wrote};
ghost use Rattle.mailaddr.specs.Domain.{parts_of};
ghost use Rattle.table.specs.Rows.{between, fields_at};
ghost use Rattle.table.specs.declared.rows.Key.TheVariants.{Domain, Path};
ghost use Rattle.table_order.specs.Place.{Sorted};
ghost use Rattle.table_lookup.specs.Levels.{level_token};
ghost use Rattle.table_lookup.specs.Lookup.{begins, by_domain, by_path};
ghost use Rattle.table_lookup.specs.Looked.{Ended, KindInside, Laid, Looked, is_reached, tabbed, tokens_from};
ghost use Rattle.table_lookup.specs.Tokens.{tokens_of, tokens_on};
ghost use Rattle.oraddr.specs.Bounds.{level_count};

use crate::level::{LevelKind, level_at};
use crate::levels::Levels;
use crate::search::find;
use chars::case::same_text;
use chars::write::put;
use oraddr::bounds::{LEVELS, VALUE_ROOM};
use table::rows::Key;

// Room for a record's levels as a path, a tab before each.
const QUERY_ROOM: usize = LEVELS * (VALUE_ROOM + 1);

// Whether a row's domain, from `a` to `b` in the table text, is a tail of a domain by whole parts. (A return for each case of the dot in front.)
pub fn is_tail(text: &[u8], a: usize, b: usize, domain: &[u8]) -> bool
    requires { (a ≤ b) × (b ≤ length text.now) }
    ensures { result ≡ begins (parts_of (between text.now a b)) (parts_of domain.now) }
{
    let n = b - a;
    if domain.len() < n {
        return false;
    }
    let from = domain.len() - n;
    if from == 0 {
        return same_text(domain, &text[a..b]);
    }
    if domain[from - 1] != b'.' {
        return false;
    }
    same_text(&domain[from..], &text[a..b])
}

// The row of the first n whose domain is the longest tail of a domain.
pub fn find_domain(text: &[u8], rows: &[usize], n: usize, domain: &[u8]) -> Option<usize>
    requires { Sorted Domain text.now rows.now n }
    ensures { Looked by_domain text.now rows.now n (parts_of domain.now) result }
{
    find(text, rows, n, Key::Domain, domain)
}

// Writes `left` levels from level k on, each with a tab before it; returns where the next goes.
fn lay_out(query: &mut [u8], at: usize, levels: &Levels, k: usize, left: usize) -> usize
    requires left_bound { k + left ≤ level_count }
    requires left_in_bounds { at + length (tabbed (tokens_on levels.now k left)) ≤ length query.old }
    ensures { Wrote query.old at (tabbed (tokens_on levels.now k left)) result query.new }
{
    if left == 0 {
        return at;
    }
    query[at] = b'\t';
    let next = put(query, at + 1, levels.level(k));
    lay_out(query, next, levels, k + 1, left - 1)
}

// The row of the first n whose path is the longest that begins a record's levels: they are laid out as a path, which is looked up.
pub fn find_path(text: &[u8], rows: &[usize], n: usize, levels: &Levels) -> Option<usize>
    requires sorted { Sorted Path text.now rows.now n }
    requires laid { Laid levels.now.bytes.now levels.now.ends.now }
    ensures { Looked by_path text.now rows.now n (tokens_of levels.now) result }
{
    let mut query = [0u8; QUERY_ROOM];
    let end = lay_out(&mut query, 0, levels, 0, LEVELS);
    find(text, rows, n, Key::Path, &query[1..end])
}

// Whether a path has this level at all.
#[tactic(auto, unfolding(crate::specs::Looked::is_reached))]
pub fn is_reached(kind: LevelKind) -> bool
    ensures { result ≡ is_reached kind }
{
    match kind {
        LevelKind::Named(_) | LevelKind::Omitted => true,
        LevelKind::NotReached => false,
    }
}

// Whether a path's level is a record's.
fn is_level(text: &[u8], kind: LevelKind, token: &[u8]) -> bool
    requires { KindInside text.now kind }
    ensures { result ≡ same_text (level_token text.now kind) token.now }
{
    match kind {
        LevelKind::Named(span) => {
            let a = span.start;
            let b = a + span.len;
            same_text(&text[a..b], token)
        }
        LevelKind::Omitted => token.is_empty(),
        LevelKind::NotReached => token.is_empty(),
    }
}

// The record's level behind the last of a path, which starts at `at` and ends at `end`, if it begins the record's levels from k on, `left`
// of them. It takes no `Levels`, which asks for all eight of a record, and these are as many as it goes over.
pub fn match_path(
    text: &[u8],
    at: usize,
    end: usize,
    levels: &[u8],
    ends: &[usize],
    k: usize,
    left: usize,
) -> Option<usize>
    requires { (end ≤ length text.now) × Ended levels.now ends.now (k + left) }
    ensures { result ≡ cond (begins (fields_at text.now at end) (tokens_from levels.now ends.now k left)) (Some (k + length (fields_at text.now at end))) None }
{
    let level = level_at(text, at, end);
    let kind = level.kind;
    if !is_reached(kind) {
        return Some(k);
    }
    if left == 0 {
        return None;
    }
    let token = &levels[ends[k]..ends[k + 1]];
    if !is_level(text, kind, token) {
        return None;
    }
    match_path(text, level.next, end, levels, ends, k + 1, left - 1)
}
