// Record to address.
// That a record is canonical is asked beside it: most callers have proved it of what they made, and a type for it would be taken apart again by each reader.
// A row is places without its text, since it stands by value in a loaded table: that it lies in the text is asked beside it.
ghost use Rattle.std.specs.Prelude.{◌≡◌, true, ◌+◌, ◌≤◌, length, take, drop};
ghost use Rattle.chars.specs.Write.{Wrote};
ghost use Rattle.oraddr.specs.Attributes as attributes;
ghost use Rattle.oraddr.specs.Bounds.{level_count};
ghost use Rattle.oraddr.specs.Canonical.{canonical_record};
ghost use Rattle.oraddr.specs.View.{view};
ghost use Rattle.mailaddr.specs.Shape.{quoted_local};
ghost use Rattle.table.specs.Rows.{RowInside, row_at};
ghost use Rattle.table_load.specs.Tables.{table_answer, table_of};
ghost use Rattle.table_lookup.specs.Looked.{Laid};
ghost use Rattle.table_lookup.specs.Tokens.{tokens_of};
ghost use Rattle.table_lookup.specs.Lookup.{begins};
ghost use Rattle.mapping.specs.Answers.{Routed, Writing, address_room, local_room, outward, routed_text, told_address};
ghost use Rattle.mapping.specs.Flat.{fronts};
ghost use Rattle.mapping.specs.ToAddress.{address_of, plan, plan_under, record_to_address, to_address, to_address_by};

use crate::carrier::{is_carrier, write_carried};
use crate::levels::{ENDS_ROOM, LEVELS_ROOM, flatten};
use chars::parts::is_atoms;
use chars::write::put;
use mailaddr::shape::put_local;
use mapping::answers::{AddressRefusal, place};
use mapping::route::Route;
use mapping::sides::Outward;
use oraddr::bounds::LEVELS;
use oraddr::record::Record;
use oraddr_canonical::canonical::is_canonical;
use ortext_write::write::{LONGEST_TEXT, write_local};
use table::line::{LONGEST_GATEWAY_DOMAIN, Row};
use table::load::Malformed;
use table::rows::{ROWS_SIZE, row_at};
use table_load::read::read_table;
use table_load::tables::Table;
use table_lookup::extend::count_extension;
use table_lookup::levels::Levels;
use table_lookup::lookup::{find_path, match_path};

// Room for any local part, and for any address: a local part in quotes, its `@` and the longest domain. A level that goes in front of a row's
// domain takes no more there than it would in the local part.
const LOCAL_ROOM: usize = LONGEST_TEXT;

pub const ADDRESS_ROOM: usize = LOCAL_ROOM + 3 + LONGEST_GATEWAY_DOMAIN;

// The route under a row that was found: its path is matched level by level, which tells how many levels it has.
fn route_under<'a>(text: &'a [u8], row: Row, levels: &Levels) -> Route<'a>
    requires row_inside { RowInside text.now row }
    requires begins { begins (row_at text.now row).path (tokens_of levels.now) ≡ true }
    ensures { Routed (tokens_of levels.now) (plan_under (row_at text.now row) (tokens_of levels.now)) result }
{
    let matched = match_path(
        text,
        row.path,
        row.path_end,
        levels.bytes,
        levels.ends,
        0,
        LEVELS,
    );
    let own = matched.unwrap_or(0);
    Route {
        domain: &text[row.domain..row.domain_end],
        own,
        more: count_extension(levels, own),
    }
}

// The route of a record by its levels: under its longest row, or with no level told at the gateway's domain.
fn find_route<'a>(table: &Outward<'a>, levels: &Levels) -> Route<'a>
    requires { Laid levels.now.bytes.now levels.now.ends.now }
    ensures { Routed (tokens_of levels.now) (plan (outward table.now.text.now table.now.to_domain.now table.now.loaded) (tokens_of levels.now)) result }
{
    let text = table.text;
    let loaded = table.loaded;
    let rows = table.to_domain;
    let Some(i) = find_path(text, rows, loaded.to_domain, levels) else {
        return Route {
            domain: &text[loaded.gateway.domain..loaded.gateway.domain_end],
            own: 0,
            more: 0,
        };
    };
    route_under(text, row_at(rows, i), levels)
}

// Writes the n levels from k on, the last of them first, each with a dot.
fn put_fronts(dst: &mut [u8], at: usize, levels: &Levels, k: usize, n: usize) -> usize
    requires n_bound { k + n ≤ level_count }
    requires fronts_in_bounds { at + length (fronts (take n (drop k (tokens_of levels.now)))) ≤ length dst.old }
    ensures { Wrote dst.old at (fronts (take n (drop k (tokens_of levels.now)))) result dst.new }
{
    let mut next = at;
    for i in (k..k + n).rev() {
        let end = put(dst, next, levels.level(i));
        dst[end] = b'.';
        next = end + 1;
    }
    next
}

// Quotes the local part of n bytes at the front of `dst`, by way of a copy.
fn quote_apart(dst: &mut [u8], n: usize) -> usize
    requires n_le_local_room { (n ≤ local_room) × (n ≤ length dst.old) }
    requires dst_in_bounds { length (quoted_local (take n dst.old)) ≤ length dst.old }
    ensures { Wrote dst.old 0 (quoted_local (take n dst.old)) result dst.new }
{
    let mut local = [0u8; LOCAL_ROOM];
    let m = put(&mut local, 0, &dst[..n]);
    put_local(dst, 0, &local[..m])
}

// Quotes the local part of n bytes at the front of `dst` where it is not atoms joined by dots. One that is, as most are, stays as it
// stands.
fn quote_front(dst: &mut [u8], n: usize) -> usize
    requires n_le_local_room { (n ≤ local_room) × (n ≤ length dst.old) }
    requires dst_in_bounds { length (quoted_local (take n dst.old)) ≤ length dst.old }
    ensures { Wrote dst.old 0 (quoted_local (take n dst.old)) result dst.new }
{
    if is_atoms(&dst[..n]) {
        return n;
    }
    quote_apart(dst, n)
}

// Writes the address of a record that goes out by a route to the front of `dst`.
fn write_routed(dst: &mut [u8], route: Route, rec: Record, levels: &Levels) -> usize
    requires dst_len { length dst.old ≡ address_room }
    requires canonical { canonical_record rec ≡ true }
    requires same_levels { tokens_of levels.now ≡ attributes.levels (view rec) }
    ensures { Wrote dst.old 0 (routed_text route.entry (view rec)) result dst.new }
{
    let m = write_local(dst, rec, route.own + route.more);
    let at = quote_front(dst, m);
    dst[at] = b'@';
    let from = put_fronts(dst, at + 1, levels, route.own, route.more);
    put(dst, from, route.domain)
}

// Writes the address of a canonical record to the front of `dst`.
pub fn write_address(dst: &mut [u8], table: &Outward, rec: Record) -> Option<usize>
    requires dst_len { length dst.old ≡ address_room }
    requires canonical { canonical_record rec ≡ true }
    ensures { Writing (address_of (outward table.now.text.now table.now.to_domain.now table.now.loaded) (view rec)) dst.old result dst.new }
{
    let mut flat = [0u8; LEVELS_ROOM];
    let mut ends = [0usize; ENDS_ROOM];
    flatten(rec, &mut flat, &mut ends);
    let levels = Levels {
        bytes: &flat,
        ends: &ends,
    };
    if is_carrier(table.text, table.loaded.gateway, rec, &levels) {
        return write_carried(dst, rec.dds);
    }
    Some(write_routed(dst, find_route(table, &levels), rec, &levels))
}

// A record to an address in a lent buffer, under a table that was loaded.
pub fn map_record(table: &Table, rec: Record, out: &mut [u8]) -> Result<usize, AddressRefusal>
    ensures { told_address result out.new ≡ to_address (table_of table.now) rec out.old }
{
    if !is_canonical(rec) {
        return Err(AddressRefusal::NotCanonical);
    }
    let mut address = [0u8; ADDRESS_ROOM];
    let Some(n) = write_address(&mut address, &Outward::of(table), rec) else {
        return Err(AddressRefusal::NoAddress);
    };
    place(out, &address[..n])
}

// A record to an address in a lent buffer, under what a table was read as.
pub fn record_under(
    read: Result<Table, Malformed>,
    rec: Record,
    out: &mut [u8],
) -> Result<usize, AddressRefusal>
    ensures { told_address result out.new ≡ to_address_by (table_answer read.entry) rec out.old }
{
    map_record(&read?, rec, out)
}

// A record to an address in a lent buffer, under a table text.
pub fn record_to_address(table: &[u8], rec: Record, out: &mut [u8]) -> Result<usize, AddressRefusal>
    ensures { told_address result out.new ≡ record_to_address table.now rec out.old }
{
    let mut to_path = [0usize; ROWS_SIZE];
    let mut to_domain = [0usize; ROWS_SIZE];
    record_under(read_table(table, &mut to_path, &mut to_domain), rec, out)
}
