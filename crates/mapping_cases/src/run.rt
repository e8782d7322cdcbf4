// The commands.
// `to, table, tag, s` travel together for one line, and `n ≤ 9999` is what four digits spell.
ghost use Rattle.std.specs.Prelude.{◌≤◌};

use crate::print::{print_to_address, print_to_record};
use crate::records::filled;
use cases::files::read_file;
use cases::lines::lines_of;
use cases::parts::{front, rest};
use cases::print::{FILLED, Output, say};
use cases::read::{LARGEST, number, unhex};
use mapping_to_address::to_address::record_to_address;
use mapping_to_record::to_record::address_to_record;
use oraddr::record::Record;
use ortext_read::read::read_text;
use std::rt::Files;

// A table with one byte too many; a line's bytes.
const TABLE_ROOM: usize = 65537;

const LINE_ROOM: usize = 8192;

// A record text's record; one that does not read is not canonical, as the empty record is not.
fn record_of(tag: u8, s: &[u8]) -> Record {
    if tag == b'R' {
        filled(s)
    } else {
        read_text(Record::empty(), 0, s).unwrap_or(Record::empty())
    }
}

// A record to an address, in a buffer.
fn run_into(to: &mut Output, table: &[u8], tag: u8, s: &[u8], out: &mut [u8]) {
    let r = record_to_address(table, record_of(tag, s), out);
    print_to_address(to, r, out);
}

// A record to an address, in a buffer of n bytes.
fn run_record(to: &mut Output, table: &[u8], tag: u8, s: &[u8], n: usize)
    requires { n ≤ 9999 }
{
    let mut out = [FILLED; LARGEST];
    run_into(to, table, tag, s, &mut out[..n]);
}

fn run_case(to: &mut Output, table: &[u8], tag: u8, s: &[u8]) {
    if tag == b'A' {
        print_to_record(to, address_to_record(table, s));
    } else {
        run_record(to, table, tag, rest(s, 4), number(s));
    }
}

// One line under a table.
fn run_line(to: &mut Output, table: &[u8], line: &[u8]) {
    let Some(&tag) = line.first() else {
        return;
    };
    let mut bytes = [0u8; LINE_ROOM];
    let n = unhex(&mut bytes, rest(line, 2));
    run_case(to, table, tag, &bytes[..n]);
    say(to, b"\n");
}

// Reads each table that a line names into the room for it, and runs the lines behind that one under it. The first line names a table,
// whatever its tag.
fn run_lines(rt: &impl Files, to: &mut Output, s: &[u8], space: &mut [u8]) {
    let mut size = None;
    for line in lines_of(s) {
        match size {
            Some(n) if !line.starts_with(b"T") => run_line(to, front(space, n), line),
            _ => size = Some(read_file(rt, rest(line, 2), space)),
        }
    }
}

pub(crate) fn run(rt: &impl Files, to: &mut Output, s: &[u8]) {
    let mut space = [0u8; TABLE_ROOM];
    run_lines(rt, to, s, &mut space);
}
