// Address to record.
// The steps behind the test of the shape ask for what it found: an address's length, and where its `@` stands.
ghost use Rattle.std.specs.Prelude.{◌≡◌, ◌<◌, ◌≤◌, length};
ghost use Rattle.ortext_read.specs.Answers.{reading_result, told_reading};
ghost use Rattle.mailaddr.specs.Answers.{address_at, local_at};
ghost use Rattle.mailaddr.specs.Shape.{longest_address};
ghost use Rattle.table_settle.specs.Settle.{settlement_answer};
ghost use Rattle.mapping.specs.Answers.{inward, read_settled, read_well, record_parted, told_record};
ghost use Rattle.mapping.specs.Carried.{settled_under};
ghost use Rattle.mapping.specs.Read.{inward_answer};
ghost use Rattle.mapping.specs.ToRecord.{address_to_record, to_record, to_record_by};

use crate::carrier::carry;
use chars::case::same_text;
use mailaddr::domain::is_domain;
use mailaddr::shape::{
    AddressFault, LONGEST_ADDRESS, Parted, is_readable, read_shape, unquote_local,
};
use mapping::answers::RecordRefusal;
use mapping::sides::Inward;
use oraddr::record::Record;
use oraddr_canonical::canonical::is_canonical;
use ortext_read::read::{TextFault, read_local};
use table::load::Malformed;
use table::rows::ROWS_SIZE;
use table_load::read::read_table;
use table_settle::settle::{Settlement, Unsettled, settle};

// Step 1: the levels that a domain settles; at the gateway's, none.
fn settle_under(table: &Inward, domain: &[u8]) -> Result<Settlement, Unsettled>
    ensures { settlement_answer result ≡ settled_under (inward table.now.text.now table.now.to_path.now table.now.loaded) domain.now }
{
    let gateway = table.loaded.gateway;
    if same_text(&table.text[gateway.domain..gateway.domain_end], domain) {
        let none = Settlement {
            levels: 0,
            record: Record::empty(),
        };
        return Ok(none);
    }
    settle(table.text, table.to_path, table.loaded.to_path, domain)
}

// Reads a local part over settled levels, if it can be read at all.
fn read_over(settled: &Settlement, s: &[u8]) -> Result<Record, TextFault>
    ensures { told_reading result ≡ reading_result (read_settled settled.now.levels settled.now.«record» s.now) }
{
    if !is_readable(s) {
        return Err(TextFault::Unread);
    }
    read_local(settled.record, settled.levels, s)
}

// Steps 2 to 4 over settled levels, by way of an unquoted copy of the local part.
fn read_unquoted(settled: &Settlement, s: &[u8], parted: Parted) -> Result<Record, TextFault>
    requires s_len_bound { length s.now ≤ longest_address }
    requires at_in_bounds { parted.at ≤ length s.now }
    ensures { told_reading result ≡ reading_result (read_settled settled.now.levels settled.now.«record» (local_at s.now parted)) }
{
    let mut local = [0u8; LONGEST_ADDRESS];
    let m = unquote_local(&mut local, s, parted);
    read_over(settled, &local[..m])
}

// Steps 2 to 4 over settled levels. A local part without quotes is read where it stands.
fn read_under(settled: &Settlement, s: &[u8], parted: Parted) -> Result<Record, TextFault>
    requires s_len_bound { length s.now ≤ longest_address }
    requires at_in_bounds { parted.at ≤ length s.now }
    ensures { told_reading result ≡ reading_result (read_settled settled.now.levels settled.now.«record» (local_at s.now parted)) }
{
    if parted.quoted {
        read_unquoted(settled, s, parted)
    } else {
        read_over(settled, &s[..parted.at])
    }
}

// Steps 1 to 4, for an address that is not carried whole for its domain or the characters of its local part.
fn read_parted(table: &Inward, s: &[u8], parted: Parted) -> Result<Record, TextFault>
    requires s_len_bound { length s.now ≤ longest_address }
    requires at_in_bounds { parted.at < length s.now }
    ensures { told_reading result ≡ reading_result (read_well (inward table.now.text.now table.now.to_path.now table.now.loaded) (address_at s.now parted)) }
{
    let domain = &s[parted.at + 1..];
    if !is_domain(domain) {
        return Err(TextFault::Unread);
    }
    let Ok(settled) = &settle_under(table, domain) else {
        return Err(TextFault::Unread);
    };
    read_under(settled, s, parted)
}

// The record of an address that has the accepted shape, or the address carried whole.
fn map_shaped(table: &Inward, s: &[u8], parted: Parted) -> Result<Record, RecordRefusal>
    requires s_len_bound { length s.now ≤ longest_address }
    requires at_in_bounds { parted.at < length s.now }
    ensures { told_record result ≡ record_parted (inward table.now.text.now table.now.to_path.now table.now.loaded) s.now parted }
{
    match &read_parted(table, s, parted) {
        Ok(rec) if is_canonical(*rec) => Ok(*rec),
        _ => carry(table.text, table.loaded.gateway, s),
    }
}

// An address to a record, under a table that was loaded.
pub fn map_address(table: &Inward, s: &[u8]) -> Result<Record, RecordRefusal>
    ensures { told_record result ≡ to_record (inward table.now.text.now table.now.to_path.now table.now.loaded) s.now }
{
    match read_shape(s) {
        Ok(parted) => map_shaped(table, s, parted),
        Err(AddressFault::TooLong) => Err(RecordRefusal::TooLong),
        Err(AddressFault::NoShape) => Err(RecordRefusal::NoShape),
    }
}

// An address to a record, under what a table was read as: its gateway and its rows to a path, or its first bad line.
pub fn address_under(read: Result<Inward, Malformed>, s: &[u8]) -> Result<Record, RecordRefusal>
    ensures { told_record result ≡ to_record_by (inward_answer read.entry) s.now }
{
    map_address(&read?, s)
}

// An address to a record, under a table text.
pub fn address_to_record(table: &[u8], s: &[u8]) -> Result<Record, RecordRefusal>
    ensures { told_record result ≡ address_to_record table.now s.now }
{
    let mut to_path = [0usize; ROWS_SIZE];
    let mut to_domain = [0usize; ROWS_SIZE];
    let read = read_table(table, &mut to_path, &mut to_domain);
    address_under(Inward::of_read(read), s)
}
