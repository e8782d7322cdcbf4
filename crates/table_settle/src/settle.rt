// Step 1 of "Address to record": the levels that a domain settles, by its row and the parts left over, added to a record.
// A path is handed on as its place in the table text, so that its end lies in the text is asked beside it.
// A row is places without its text, since it stands by value in a loaded table: that it lies in the text is asked beside it.
ghost use Rattle.std.specs.Prelude.{◌≡◌, ◌++◌, ◌+◌, ◌-◌, ◌≤◌, length, take};
ghost use Rattle.std.proofs.Math.Option.{some};
ghost use Rattle.chars.specs.Write.{Wrote};
ghost use Rattle.oraddr.specs.Add.{told};
ghost use Rattle.oraddr.specs.View.{empty_record};
ghost use Rattle.table.specs.Rows.{RowInside, fields_at, row_at, rows_at};
ghost use Rattle.table.specs.declared.rows.Key.TheVariants.{Domain};
ghost use Rattle.table_order.specs.Place.{Sorted};
ghost use Rattle.table_settle.specs.Settle.{add_level, add_levels, begun, left_parts, nexts_from, settled_from, settlement_answer, settling};
ghost use Rattle.oraddr.specs.Bounds.{level_count};

use mailaddr::domain::{count_parts, part_start};
use oraddr::add::{Added, Addition};
use oraddr::bounds::{LEVELS, OWN_LEVELS};
use oraddr::record::Record;
use table::line::Row;
use table::rows::row_at;
use table_lookup::level::level_at;
use table_lookup::lookup::{find_domain, is_reached};

// What step 1 comes to: how many levels are settled, omitted ones too, and the record that has them.
#[derive(Clone, Copy)]
pub struct Settlement {
    pub levels: usize,
    pub record: Record,
}

// Why a domain settles no levels.
#[derive(Clone, Copy, Debug, PartialEq, Eq)]
pub enum Unsettled {
    NoRow,
    PastUnits,
    PastBound,
}

// Notes in `nexts`, from place k on, where the level behind each level of a path would start: one after the other, until no level is
// left. Returns how many levels the path has, which starts at `at` and ends at `end`, of the `left` that it can have.
fn lay_levels(
    nexts: &mut [usize],
    text: &[u8],
    at: usize,
    end: usize,
    k: usize,
    left: usize,
) -> usize
    requires nexts_len { length nexts.old ≡ level_count }
    requires end_in_bounds { end ≤ length text.now }
    requires end_len_bound { length (fields_at text.now at end) ≤ left }
    requires left_value { k + left ≡ level_count }
    ensures { Wrote nexts.old k (nexts_from at (fields_at text.now at end)) (k + result) nexts.new }
{
    let level = level_at(text, at, end);
    let kind = level.kind;
    if !is_reached(kind) {
        return 0;
    }
    nexts[k] = level.next;
    1 + lay_levels(nexts, text, level.next, end, k + 1, left - 1)
}

// How many levels a path has, which starts at `at` and ends at `end`.
pub fn count_levels(text: &[u8], at: usize, end: usize) -> usize
    requires end_in_bounds { end ≤ length text.now }
    requires end_len_bound { length (fields_at text.now at end) ≤ level_count }
    ensures { result ≡ length (fields_at text.now at end) }
{
    let mut nexts = [0usize; LEVELS];
    lay_levels(&mut nexts, text, at, end, 0, LEVELS)
}

// How many parts a domain has before the part that starts at a place.
fn count_left(domain: &[u8], start: usize) -> usize
    requires { start ≤ length domain.now }
    ensures { result ≡ length (left_parts domain.now start) }
{
    if start == 0 {
        return 0;
    }
    count_parts(&domain[..start - 1])
}

// Adds a token at level k; an omitted level adds nothing.
pub fn add_level(rec: Record, k: usize, token: &[u8]) -> Addition
    ensures { told result ≡ add_level k token.now rec }
{
    if token.len() == 0 {
        return Addition {
            record: rec,
            answer: Added::Done,
        };
    }
    if k < OWN_LEVELS {
        return rec.with_single(k, token);
    }
    rec.with_unit(token)
}

// Adds the levels of a path to a record with none. `nexts` has where the level behind each would start, so that no record goes through
// the recursion, which would copy it at each level.
fn add_laid(text: &[u8], at: usize, end: usize, nexts: &[usize]) -> Addition
    requires end_in_bounds { end ≤ length text.now }
    requires nexts_value { take (length (fields_at text.now at end)) nexts.now ≡ nexts_from at (fields_at text.now at end) }
    ensures { told result ≡ add_levels 0 (fields_at text.now at end) (begun empty_record) }
{
    let mut done = Addition {
        record: Record::empty(),
        answer: Added::Done,
    };
    let mut from = at;
    let mut k = 0;
    // while: `nexts` says where each level starts, and a `for` over it would need the path's end, which the clauses name, as a ghost value
    while from <= end {
        if let Added::Refused = done.answer {
            return done;
        }
        let next = nexts[k];
        done = add_level(done.record, k, &text[from..next - 1]);
        from = next;
        k += 1;
    }
    done
}

// Adds the levels of a path, which starts at `at` and ends at `end`, to a record with none.
pub fn add_path(text: &[u8], at: usize, end: usize) -> Addition
    requires end_in_bounds { end ≤ length text.now }
    requires end_len_bound { length (fields_at text.now at end) ≤ level_count }
    ensures { told result ≡ add_levels 0 (fields_at text.now at end) (begun empty_record) }
{
    let mut nexts = [0usize; LEVELS];
    lay_levels(&mut nexts, text, at, end, 0, LEVELS);
    add_laid(text, at, end, &nexts)
}

// Adds to what a path came to the parts that a domain has before the part that starts at a place, from the right, at the levels from k on.
fn add_parts(path: Addition, domain: &[u8], start: usize, k: usize) -> Addition
    requires start_in_bounds { start ≤ length domain.now }
    requires start_bound { k + length (left_parts domain.now start) ≤ level_count }
    ensures { told result ≡ add_levels k (left_parts domain.now start) (told path) }
{
    let mut done = path;
    let mut from = start;
    let mut i = k;
    // while: the parts are taken from the right, each in front of the one before it, until a refusal
    while 0 < from {
        if let Added::Refused = done.answer {
            return done;
        }
        let end = from - 1;
        from = part_start(domain, end);
        done = add_level(done.record, i, &domain[from..end]);
        i += 1;
    }
    done
}

// The levels of a row's path and then the parts of what a domain has in front of the row's domain.
pub fn settle_row(text: &[u8], row: Row, domain: &[u8]) -> Result<Settlement, Unsettled>
    requires row_inside { RowInside text.now row }
    requires domain_in_bounds { row.domain_end - row.domain ≤ length domain.now }
    ensures { settlement_answer result ≡ settled_from
        (some ((row_at text.now row).path ++ left_parts domain.now (length domain.now - (row.domain_end - row.domain)))) }
{
    let mut nexts = [0usize; LEVELS];
    let at = row.path;
    let end = row.path_end;
    let k = lay_levels(&mut nexts, text, at, end, 0, LEVELS);
    let own = row.domain_end - row.domain;
    let start = domain.len() - own;
    let n = count_left(domain, start);
    if LEVELS - k < n {
        return Err(Unsettled::PastUnits);
    }
    let path = add_laid(text, at, end, &nexts);
    let done = add_parts(path, domain, start, k);
    if let Added::Refused = done.answer {
        return Err(Unsettled::PastBound);
    }
    let settled = Settlement {
        levels: k + n,
        record: done.record,
    };
    Ok(settled)
}

// The levels that a domain settles, by the first n rows.
pub fn settle(text: &[u8], rows: &[usize], n: usize, domain: &[u8]) -> Result<Settlement, Unsettled>
    requires { Sorted Domain text.now rows.now n }
    ensures { settlement_answer result ≡ settling (rows_at text.now rows.now n) domain.now }
{
    let Some(i) = find_domain(text, rows, n, domain) else {
        return Err(Unsettled::NoRow);
    };
    settle_row(text, row_at(rows, i), domain)
}
