// Carriers: the test for a record that carries an address, and the address out of it.
// A row is places without its text, since it stands by value in a loaded table: that it lies in the text is asked beside it.
// A buffer is lent with room for all of the text, which is asked: nothing is allocated, and whose room it is only the caller knows.
ghost use Rattle.std.specs.Prelude.{◌≡◌, ◌≤◌, length};
ghost use Rattle.std.proofs.Math.Option.{some};
ghost use Rattle.chars.specs.Case.{same_text};
ghost use Rattle.oraddr.specs.View.{dd_value_view, dds_view, kind_view, view};
ghost use Rattle.mailaddr.specs.Code.{decoded};
ghost use Rattle.table.specs.Rows.{RowInside, row_at};
ghost use Rattle.table_lookup.specs.Tokens.{tokens_of};
ghost use Rattle.mapping.specs.Answers.{Writing};
ghost use Rattle.mapping.specs.Carried.{carrier_type, longest_coded};
ghost use Rattle.mapping.specs.ToAddress.{carried_address, has_levels, in_shape, is_carrier_at, is_nameless, is_one_carrier};

use chars::case::same_text;
use chars::write::put;
use mailaddr::code::decode;
use mailaddr::shape::read_shape;
use oraddr::bounds::{DD_VALUE_ROOM, LEVELS, OWN_LEVELS};
use oraddr::record::{Dds, Record};
use oraddr::value::{DdType, DdValue};
use table::line::Row;
use table_lookup::levels::Levels;
use table_lookup::lookup::match_path;

// Whether levels are those of a row's path and no more.
fn has_levels(text: &[u8], row: Row, levels: &Levels) -> bool
    requires { RowInside text.now row }
    ensures { result ≡ has_levels (row_at text.now row).path (tokens_of levels.now) }
{
    let matched = match_path(
        text,
        row.path,
        row.path_end,
        levels.bytes,
        levels.ends,
        0,
        LEVELS,
    );
    match matched {
        Some(k) => levels.ends[k] == levels.ends[LEVELS],
        None => false,
    }
}

// Whether a record has no CN, S, G, I or GQ.
fn is_nameless(rec: Record) -> bool
    ensures { result ≡ is_nameless (view rec) }
{
    rec.singles.values[OWN_LEVELS..]
        .iter()
        .all(|value| value.text().is_empty())
}

// Whether a DD's type is that of a carrier's.
fn is_carrier_type(kind: &DdType) -> bool
    ensures { result ≡ same_text carrier_type (kind_view kind.now) }
{
    same_text(b"RFC-822", kind.text())
}

// Whether there is one DD, and it has a carrier's type.
fn is_one_carrier(dds: Dds) -> bool
    ensures { result ≡ is_one_carrier (dds_view dds) }
{
    dds.size() == 1 && is_carrier_type(&dds.item(0).kind)
}

// Whether a record with these levels is a carrier under the gateway's path.
#[tactic(auto, unfolding(oraddr::specs::View::view))]
pub fn is_carrier(text: &[u8], gateway: Row, rec: Record, levels: &Levels) -> bool
    requires { RowInside text.now gateway }
    ensures { result ≡ is_carrier_at (row_at text.now gateway).path (tokens_of levels.now) (view rec) }
{
    has_levels(text, gateway, levels) && is_nameless(rec) && is_one_carrier(rec.dds)
}

// Writes `s` to the front of `dst`, if it is an address of accepted shape.
fn put_address(dst: &mut [u8], s: &[u8]) -> Option<usize>
    requires s_len_bound { length s.now ≤ longest_coded }
    requires s_in_bounds { length s.now ≤ length dst.old }
    ensures { Writing (in_shape (some s.now)) dst.old result dst.new }
{
    match read_shape(s) {
        Ok(_) => Some(put(dst, 0, s)),
        Err(_) => None,
    }
}

// Writes the address that a value carries to the front of `dst`. It is decoded apart, so that a value with no address in it leaves `dst` as
// it was.
fn write_value(dst: &mut [u8], value: DdValue) -> Option<usize>
    requires { longest_coded ≤ length dst.old }
    ensures { Writing (in_shape (decoded (dd_value_view value))) dst.old result dst.new }
{
    let mut address = [0u8; DD_VALUE_ROOM];
    let n = decode(&mut address, value.text())?;
    put_address(dst, &address[..n])
}

// Writes the address that a record carries to the front of `dst`.
pub fn write_carried(dst: &mut [u8], dds: Dds) -> Option<usize>
    requires { longest_coded ≤ length dst.old }
    ensures { Writing (carried_address (dds_view dds)) dst.old result dst.new }
{
    write_value(dst, dds.item(0).value)
}
