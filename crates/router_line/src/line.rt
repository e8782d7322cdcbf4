// One line of a run, answered.
// That a record is canonical is asked beside it: most callers have proved it of what they made, and a type for it would be taken apart again by each reader.
// The room is asked of each: it is a part of a larger buffer, which no array's type is.
ghost use Rattle.std.specs.Prelude.{◌≡◌, true, ◌+◌, ◌<◌, ◌≤◌, drop, length, take};
ghost use Rattle.chars.specs.Write.{Wrote};
ghost use Rattle.oraddr.specs.Canonical.{canonical_record};
ghost use Rattle.oraddr.specs.View.{view};
ghost use Rattle.ortext_read.specs.Apply.{read};
ghost use Rattle.ortext_segments.specs.Keys.{keys};
ghost use Rattle.ortext_write.specs.Write.{record_text};
ghost use Rattle.table.specs.Lines.{well_formed};
ghost use Rattle.table_load.specs.Tables.{table_answer, table_of};
ghost use Rattle.mapping.specs.ToRecord.{to_record, to_record_by};
ghost use Rattle.router_line.specs.Line.{answer_room, done_line, line_answer, read_line, record_line, refused_line, tagged_line, text_at, text_line};
ghost use Rattle.router_line.specs.Ready.{Placed};

use chars::write::put;
use mapping::answers::Refusal;
use mapping::sides::{Inward, Outward};
use mapping_to_address::to_address::{ADDRESS_ROOM, write_address};
use mapping_to_record::to_record::map_address;
use oraddr::record::Record;
use oraddr_canonical::canonical::is_canonical;
use ortext_read::read::read_text;
use ortext_write::write::write_text;
use table::load::Malformed;
use table_load::tables::Table;

// The longest line.
pub const LONGEST_LINE: usize = 4096;

// Where the other form stands in an answer: behind the number and a tab.
const TEXT_AT: usize = 2;

// Room for any answer: an address's, which is longer than any record text, and an LF.
pub const ANSWER_ROOM: usize = TEXT_AT + ADDRESS_ROOM + 1;

// A refusal: its number.
fn put_refusal(dst: &mut [u8], number: usize) -> usize
    requires in_bounds { 2 ≤ length dst.old }
    requires number_bound { number < 10 }
    ensures { Wrote dst.old 0 (refused_line number) result dst.new }
{
    dst[0] = b'0' + number as u8;
    dst[1] = b'\n';
    2
}

// An address of n bytes, which stands in its place already: the number and the tab before it, and the LF.
fn put_done(dst: &mut [u8], n: usize) -> usize
    requires { n + 3 ≤ length dst.old }
    ensures { Wrote dst.old 0 (done_line (take n (drop text_at dst.old))) result dst.new }
{
    dst[0] = b'0';
    dst[1] = b'\t';
    dst[TEXT_AT + n] = b'\n';
    n + 3
}

// A record's text.
fn put_record(dst: &mut [u8], rec: &Record) -> usize
    requires dst_len { length dst.old ≡ answer_room }
    requires canonical { canonical_record rec.now ≡ true }
    ensures { Wrote dst.old 0 (done_line (record_text keys (view rec.now))) result dst.new }
{
    dst[0] = b'0';
    dst[1] = b'\t';
    let end = write_text(dst, TEXT_AT, *rec, 0);
    dst[end] = b'\n';
    end + 1
}

// An address, under a table that was loaded.
fn map_line(table: &Table, s: &[u8], dst: &mut [u8]) -> usize
    requires { length dst.old ≡ answer_room }
    ensures { Wrote dst.old 0 (record_line (to_record (table_of table.now) s.now)) result dst.new }
{
    match &map_address(&Inward::of(table), s) {
        Ok(rec) => put_record(dst, rec),
        Err(refusal) => put_refusal(dst, refusal.number()),
    }
}

// An address.
fn answer_address(read: &Result<Table, Malformed>, s: &[u8], dst: &mut [u8]) -> usize
    requires { length dst.old ≡ answer_room }
    ensures { Wrote dst.old 0 (record_line (to_record_by (table_answer read.now) s.now)) result dst.new }
{
    match read {
        Ok(table) => map_line(table, s, dst),
        Err(_) => put_refusal(dst, 7),
    }
}

// The address of a record that was read.
fn send_record(table: &Table, rec: &Record, dst: &mut [u8]) -> usize
    requires { length dst.old ≡ answer_room }
    ensures { Wrote dst.old 0 (read_line (table_of table.now) (read rec.now)) result dst.new }
{
    if !is_canonical(*rec) {
        return put_refusal(dst, 4);
    }
    let end = TEXT_AT + ADDRESS_ROOM;
    match write_address(&mut dst[TEXT_AT..end], &Outward::of(table), *rec) {
        Some(n) => put_done(dst, n),
        None => put_refusal(dst, 5),
    }
}

// A record text, under a table that was loaded.
fn read_line(table: &Table, s: &[u8], dst: &mut [u8]) -> usize
    requires { length dst.old ≡ answer_room }
    ensures { Wrote dst.old 0 (text_line (well_formed (table_of table.now)) s.now) result dst.new }
{
    match &read_text(Record::empty(), 0, s) {
        Ok(rec) => send_record(table, rec, dst),
        Err(_) => put_refusal(dst, 4),
    }
}

// A record text.
fn answer_text(read: &Result<Table, Malformed>, s: &[u8], dst: &mut [u8]) -> usize
    requires { length dst.old ≡ answer_room }
    ensures { Wrote dst.old 0
        (text_line (table_answer read.now) s.now) result dst.new }
{
    match read {
        Ok(table) => read_line(table, s, dst),
        Err(_) => put_refusal(dst, 7),
    }
}

// A line's form: behind its tag and tab stands an address, or a record text.
fn answer_tagged(read: &Result<Table, Malformed>, tag: u8, s: &[u8], dst: &mut [u8]) -> usize
    requires { length dst.old ≡ answer_room }
    ensures { Wrote dst.old 0
        (tagged_line (table_answer read.now) tag s.now) result dst.new }
{
    match tag {
        b'A' => answer_address(read, s, dst),
        b'O' => answer_text(read, s, dst),
        _ => put_refusal(dst, 1),
    }
}

// A line, without its LF.
fn answer_line(read: &Result<Table, Malformed>, line: &[u8], dst: &mut [u8]) -> usize
    requires { length dst.old ≡ answer_room }
    ensures { Wrote dst.old 0
        (line_answer (table_answer read.now) line.now) result dst.new }
{
    if LONGEST_LINE < line.len() || line.len() < 2 || line[1] != b'\t' {
        return put_refusal(dst, 1);
    }
    answer_tagged(read, line[0], &line[2..], dst)
}

// Copies an answer to a place of the output, if it fits; and then, where the next one goes.
fn place(out: &mut [u8], at: usize, s: &[u8]) -> Option<usize>
    requires { at ≤ length out.old }
    ensures { Placed out.old at s.now result out.new }
{
    if out.len() - at < s.len() {
        return None;
    }
    Some(put(out, at, s))
}

// A line's answer at a place of the output, if it fits. It is put together apart from the output, so that one that does not fit leaves
// that as it was.
fn place_apart(
    read: &Result<Table, Malformed>,
    line: &[u8],
    out: &mut [u8],
    at: usize,
) -> Option<usize>
    requires { at ≤ length out.old }
    ensures { Placed out.old at
        (line_answer (table_answer read.now) line.now) result out.new }
{
    let mut answer = [0u8; ANSWER_ROOM];
    let n = answer_line(read, line, &mut answer);
    place(out, at, &answer[..n])
}

// A line's answer at a place of the output, if it fits: written straight to its place where there is room for any answer.
pub fn place_answer(
    read: &Result<Table, Malformed>,
    line: &[u8],
    out: &mut [u8],
    at: usize,
) -> Option<usize>
    requires { at ≤ length out.old }
    ensures { Placed out.old at
        (line_answer (table_answer read.now) line.now) result out.new }
{
    if out.len() - at < ANSWER_ROOM {
        return place_apart(read, line, out, at);
    }
    let end = at + ANSWER_ROOM;
    let n = answer_line(read, line, &mut out[at..end]);
    Some(at + n)
}
