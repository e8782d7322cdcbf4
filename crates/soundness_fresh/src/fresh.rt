// A label that no row has behind a row's path or behind its domain. Labels are three digits; each row uses up one number at most, so of
// two more than there can be rows one is free.
// A path is handed on as its place in the table text, so that its end lies in the text is asked beside it.
ghost use Rattle.std.specs.Prelude.{◌≡◌, true, not, [], map, ◌+◌, ◌-◌, ◌<◌, ◌≤◌, get_or, length, set, take, drop};
ghost use Rattle.std.specs.List.{position};
ghost use Rattle.chars.specs.Case.{fold_text};
ghost use Rattle.mailaddr.specs.Domain.{parts_of};
ghost use Rattle.table_load.specs.Tables.{table_of};
ghost use Rattle.table.specs.Rows.{Inside, fields_at, row_at, rows_at};
ghost use Rattle.soundness.specs.Folded.{domain_row, fold_tokens, path_row, token_table};
ghost use Rattle.soundness.specs.Labels.{fresh, label_limit, marked, label_number, odd_label};

use chars::case::fold_case;
use chars::parts::byte_at;
use mailaddr::domain::part_start;
use table::line::Row;
use table::rows::row_at;
use table_load::tables::Table;
use table_lookup::level::{LevelKind, Span, level_at};

// How many numbers are tried.
pub const LABELS: usize = 514;

// What a byte of a token tells as a digit, letter case aside; one that is not there, or is below the digits, tells 0.
fn digit_at(token: &[u8], i: usize) -> usize
    ensures value { result ≡ get_or (fold_text token.now) i 0 - 48 }
    ensures small { result < 256 }
{
    usize::from(fold_case(byte_at(token, i))).saturating_sub(usize::from(b'0'))
}

// The number that the first three bytes of a token tell.
fn number_of(token: &[u8]) -> usize
    ensures { result ≡ label_number (fold_text token.now) }
{
    100 * digit_at(token, 0) + 10 * digit_at(token, 1) + digit_at(token, 2)
}

// Marks the number of a token.
fn mark(marks: &mut [bool], token: &[u8])
    ensures { marks.new ≡ set marks.old (label_number (fold_text token.now)) true }
{
    // An index: what `get_mut` leaves behind is told in names of the checker's own.
    let n = number_of(token);
    if n < marks.len() {
        marks[n] = true;
    }
}

// Level k of a path that starts at `at` and ends at `end`: its place. No Option: a level that is omitted or not there is the empty token.
pub fn level_span(text: &[u8], at: usize, end: usize, k: usize) -> Span
    requires { end ≤ length text.now }
    ensures within { result.start + result.len ≤ length text.now }
    ensures token { take result.len (drop result.start text.now) ≡ get_or (fields_at text.now at end) k [] }
{
    let level = level_at(text, at, end);
    let span = match level.kind {
        LevelKind::NotReached => return Span { start: 0, len: 0 },
        LevelKind::Omitted => Span { start: 0, len: 0 },
        LevelKind::Named(span) => span,
    };
    if k == 0 {
        return span;
    }
    level_span(text, level.next, end, k - 1)
}

// Part k of a domain, from the right; an empty one where there are fewer.
fn part(domain: &[u8], k: usize) -> &[u8]
    ensures { result.now ≡ get_or (parts_of domain.now) k [] }
{
    let mut end = domain.len();
    for _ in 0..k {
        let start = part_start(domain, end);
        if start == 0 {
            return &[];
        }
        end = start - 1;
    }
    &domain[part_start(domain, end)..end]
}

// Marks the numbers that the first n rows to a domain have at level k.
fn mark_paths(marks: &mut [bool], text: &[u8], rows: &[usize], n: usize, k: usize)
    requires { Inside text.now rows.now n }
    ensures { marks.new ≡ marked k (map domain_row (rows_at text.now rows.now n)) marks.old }
{
    for i in 0..n {
        let row = row_at(rows, i);
        let span = level_span(text, row.path, row.path_end, k);
        mark(marks, &text[span.start..span.start + span.len]);
    }
}

// Marks the numbers that the first n rows to a path have at part k of their domain, from the right. (Apart from `mark_paths`: a closure for the
// token would need a ghost for how it reads a row, which is longer than this loop.)
fn mark_domains(marks: &mut [bool], text: &[u8], rows: &[usize], n: usize, k: usize)
    requires { Inside text.now rows.now n }
    ensures { marks.new ≡ marked k (map path_row (rows_at text.now rows.now n)) marks.old }
{
    for i in 0..n {
        let row = row_at(rows, i);
        mark(marks, part(&text[row.domain..row.domain_end], k));
    }
}

// The first number that is not marked.
fn first_free(marks: &[bool]) -> Option<usize>
    ensures { result ≡ position not marks.now }
{
    marks.iter().position(|m| !*m)
}

// A number whose label no row has behind the `levels` levels of a row's path, nor behind the `parts` parts of its domain.
pub fn free_number(table: &Table, levels: usize, parts: usize, row: Row) -> usize
    requires levels_value { levels ≡ length (row_at table.now.text.now row).path }
    requires parts_value { parts ≡ length (parts_of (row_at table.now.text.now row).domain) }
    ensures { result ≡ fresh (token_table (table_of table.now)) (domain_row (row_at table.now.text.now row)) }
{
    let mut marks = [false; LABELS];
    mark_paths(
        &mut marks,
        table.text,
        table.to_domain,
        table.loaded.to_domain,
        levels,
    );
    mark_domains(
        &mut marks,
        table.text,
        table.to_path,
        table.loaded.to_path,
        parts,
    );
    first_free(&marks).unwrap_or(LABELS)
}

// The label of a number, with `+` behind: the first three bytes are a domain part, all four are none.
pub fn odd_label(n: usize) -> [u8; 4]
    requires { n < label_limit }
    ensures { result ≡ odd_label n }
{
    [
        b'0' + (n / 100 % 10) as u8,
        b'0' + (n / 10 % 10) as u8,
        b'0' + (n % 10) as u8,
        b'+',
    ]
}
