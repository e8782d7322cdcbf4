// One line of the table text, by itself: its tag, its domain and its path, each by the rules.
// A path is handed on as its place in the table text, so that its end lies in the text is asked beside it.
ghost use Rattle.std.specs.Prelude.{◌≡◌, ◌&&◌, ◌+◌, ◌≤◌, leb, length};
ghost use Rattle.table.specs.Lines.{are_fields, is_field, is_path};
ghost use Rattle.table.specs.Rows.{RowReading, fields_at};
ghost use Rattle.oraddr.specs.Bounds.{level_count};

use chars::parts::part_end;
use mailaddr::domain::is_domain;
use oraddr::bounds::{LEVELS, OU, OWN_LEVELS, PRMD, is_value, keeps_rule};

// The limits of a table.
pub const LONGEST_GATEWAY_DOMAIN: usize = 253;

pub const LONGEST_ROW_DOMAIN: usize = 40;

// Where a row's domain and path stand in the table text.
#[derive(Clone, Copy)]
pub struct Row {
    pub domain: usize,
    pub domain_end: usize,
    pub path: usize,
    pub path_end: usize,
}

// Whether a field may stand for level k: a value by the record's rules; only PRMD may be empty.
fn is_field(k: usize, s: &[u8]) -> bool
    ensures { result ≡ is_field k s.now }
{
    if s.is_empty() {
        return k == PRMD;
    }
    if k < OWN_LEVELS {
        keeps_rule(k, s)
    } else {
        is_value(OU, s)
    }
}

// Whether the fields of a path from `at` to `end` may stand for the levels from k on, `left` of them at most. (Tests
// in the order of the definition, around a place that the last two need.)
fn are_fields(text: &[u8], at: usize, end: usize, k: usize, left: usize) -> bool
    requires end_in_bounds { end ≤ length text.now }
    requires left_value { k + left ≡ level_count }
    ensures { result ≡ leb (length (fields_at text.now at end)) left && are_fields k (fields_at text.now at end) }
{
    if end < at {
        return true;
    }
    if left == 0 {
        return false;
    }
    let stop = part_end(&text[..end], at, b'\t');
    is_field(k, &text[at..stop]) && are_fields(text, stop + 1, end, k + 1, left - 1)
}

// Whether a region of the text is a path: two to eight fields.
pub fn is_path(text: &[u8], at: usize, end: usize) -> bool
    requires at_le_end { at ≤ end }
    requires end_in_bounds { end ≤ length text.now }
    ensures { result ≡ is_path (fields_at text.now at end) }
{
    part_end(&text[..end], at, b'\t') != end && are_fields(text, at, end, 0, LEVELS)
}

// The row of a line that starts at `from` and ends at `end`, if it has the tag, a domain of at most `most` bytes and a path.
pub fn read_row(text: &[u8], from: usize, end: usize, tag: u8, most: usize) -> Option<Row>
    requires from_le_end { from ≤ end }
    requires end_in_bounds { end ≤ length text.now }
    requires no_tab { tag ≡ 9 → ⊥ }
    ensures { RowReading text.now from end tag most result }
{
    if end < from + 2 || text[from] != tag || text[from + 1] != b'\t' {
        return None;
    }
    let domain = from + 2;
    let stop = part_end(&text[..end], domain, b'\t');
    if stop == end || most < stop - domain {
        return None;
    }
    if !is_domain(&text[domain..stop]) || !is_path(text, stop + 1, end) {
        return None;
    }
    Some(Row {
        domain,
        domain_end: stop,
        path: stop + 1,
        path_end: end,
    })
}
