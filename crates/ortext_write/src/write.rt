// Record text and the short form of a name, written into a buffer with room for them (document 01, "Record to address").
// An attribute's number is bounded where it is used: it indexes the one table of bounds, and loops count over it.
// What is written goes to a place of a lent buffer, and where the next goes is told: `dst, at`, as in `put` of chars/src/write.rt.
ghost use Rattle.std.specs.Prelude.{◌≡◌, not, [], ◌∷◌, map, reverse, ◌+◌, ◌-◌, ◌<◌, ◌≤◌, min, ltb, drop, get_or, length, take};
ghost use Rattle.chars.specs.Lists.{all, non_empty};
ghost use Rattle.chars.specs.Write.{Wrote};
ghost use Rattle.oraddr.specs.View.{dd_view, dds_view, unit_view, units_view, value_view, view};
ghost use Rattle.oraddr.specs.Bounds.{own_levels, single_count};
ghost use Rattle.ortext_segments.specs.Keys.{ou_key, pn_key, key_count, keys};
ghost use Rattle.ortext_name.specs.Places.{name_view};
ghost use Rattle.ortext_write.specs.Write.{dd_segment, has_short, joined, key_value, long_dd, order, plain_segment, quoted, segment_text, segments_at, segments_in};
ghost use Rattle.ortext_write.specs.Write.{local_text, name_in, only_name, record_text, remaining, writes_short};

use chars::case::same_text;
use chars::write::put;
use oraddr::bounds::{
    ADMD, BOUNDS, C, CN, DD_TYPE, DD_VALUE, G, GQ, I, MOST, O, OU, OWN_LEVELS, PRMD, S,
};
use oraddr::record::{Dds, Record, Units};
use oraddr::value::{DomainDefined, OrgUnit};
use ortext_name::name::Name;
use ortext_segments::keys::{DD_KEY, OU_KEY, PN_KEY, SHORT_KEYS, key_name};
use ortext_segments::scan::is_stop;

// The order in which record text is written, by the numbers of the keys: those before PN, which is read only.
const ORDER: [usize; PN_KEY] = [DD_KEY, CN, G, I, S, GQ, OU_KEY, O, PRMD, ADMD, C];

// The longest record text that a canonical record can have: the segments of all attributes, a slash, the key, an equals sign and the value each,
// every character of the values quoted but C's; and the last slash.
const DD_MOST: usize = 5 + 2 * BOUNDS[DD_TYPE] + 2 * BOUNDS[DD_VALUE];

const UNIT_MOST: usize = 4 + 2 * BOUNDS[OU];

const NAMES_MOST: usize = (4 + 2 * BOUNDS[CN])
    + (3 + 2 * BOUNDS[G])
    + (3 + 2 * BOUNDS[I])
    + (3 + 2 * BOUNDS[S])
    + (4 + 2 * BOUNDS[GQ]);

const LEVELS_MOST: usize = MOST * UNIT_MOST
    + (3 + 2 * BOUNDS[O])
    + (6 + 2 * BOUNDS[PRMD])
    + (6 + 2 * BOUNDS[ADMD])
    + (3 + BOUNDS[C]);

pub const LONGEST_TEXT: usize = MOST * DD_MOST + NAMES_MOST + LEVELS_MOST + 1;

// Writes a character, with `$` before a slash or an equals sign.
fn put_char(dst: &mut [u8], at: usize, b: u8) -> usize
    requires { at + length (quoted (b ∷ [])) ≤ length dst.old }
    ensures { Wrote dst.old at (quoted (b ∷ [])) result dst.new }
{
    if is_stop(b) {
        dst[at] = b'$';
        dst[at + 1] = b;
        return at + 2;
    }
    dst[at] = b;
    at + 1
}

// Writes a text with `$` before each slash and equals sign.
fn put_quoted(dst: &mut [u8], at: usize, text: &[u8]) -> usize
    requires { at + length (quoted text.now) ≤ length dst.old }
    ensures { Wrote dst.old at (quoted text.now) result dst.new }
{
    let mut next = at;
    for b in text {
        next = put_char(dst, next, *b);
    }
    next
}

// Writes a slash, the key with the number k, an equals sign and a quoted value.
fn put_segment(dst: &mut [u8], at: usize, k: usize, value: &[u8]) -> usize
    requires key { k < key_count }
    requires room { at + length (key_value (get_or keys k []) value.now) ≤ length dst.old }
    ensures { Wrote dst.old at (key_value (get_or keys k []) value.now) result dst.new }
{
    dst[at] = b'/';
    let a = put(dst, at + 1, key_name(k));
    dst[a] = b'=';
    put_quoted(dst, a + 1, value)
}

// Whether a DD's type has a short key.
fn is_short_kind(kind: &[u8]) -> bool
    ensures { result ≡ has_short keys kind.now }
{
    same_text(key_name(SHORT_KEYS), kind)
}

// Writes `/DD.`, the quoted type, an equals sign and the quoted value.
fn put_long_dd(dst: &mut [u8], at: usize, kind: &[u8], value: &[u8]) -> usize
    requires { at + length (long_dd keys kind.now value.now) ≤ length dst.old }
    ensures { Wrote dst.old at (long_dd keys kind.now value.now) result dst.new }
{
    dst[at] = b'/';
    let a = put(dst, at + 1, key_name(DD_KEY));
    dst[a] = b'.';
    let b = put_quoted(dst, a + 1, kind);
    dst[b] = b'=';
    put_quoted(dst, b + 1, value)
}

// Writes the segment of a DD.
fn put_dd(dst: &mut [u8], at: usize, kind: &[u8], value: &[u8]) -> usize
    requires { at + length (segment_text keys (dd_segment (record { kind = kind.now; value = value.now }))) ≤ length dst.old }
    ensures { Wrote dst.old at (segment_text keys (dd_segment (record { kind = kind.now; value = value.now }))) result dst.new }
{
    if is_short_kind(kind) {
        return put_segment(dst, at, SHORT_KEYS, value);
    }
    put_long_dd(dst, at, kind, value)
}

// Writes a DD of a record.
fn put_item(dst: &mut [u8], at: usize, item: DomainDefined) -> usize
    requires { at + length (segment_text keys (dd_segment (dd_view item))) ≤ length dst.old }
    ensures { Wrote dst.old at (segment_text keys (dd_segment (dd_view item))) result dst.new }
{
    put_dd(dst, at, item.kind.text(), item.value.text())
}

// Writes the DDs, in order.
fn put_dds(dst: &mut [u8], at: usize, dds: Dds) -> usize
    requires { at + length (joined keys (map dd_segment (dds_view dds))) ≤ length dst.old }
    ensures { Wrote dst.old at (joined keys (map dd_segment (dds_view dds))) result dst.new }
{
    let mut next = at;
    for i in 0..dds.size() {
        next = put_item(dst, next, dds.item(i));
    }
    next
}

// Writes a unit of a record.
fn put_unit(dst: &mut [u8], at: usize, unit: OrgUnit) -> usize
    requires { at + length (segment_text keys (plain_segment ou_key (unit_view unit))) ≤ length dst.old }
    ensures { Wrote dst.old at (segment_text keys (plain_segment ou_key (unit_view unit))) result dst.new }
{
    put_segment(dst, at, OU_KEY, unit.text())
}

// Writes the units from number `from` on, the least significant first.
fn put_units(dst: &mut [u8], at: usize, units: Units, from: usize) -> usize
    requires { at + length (joined keys (map (plain_segment ou_key) (reverse (drop from (units_view units))))) ≤ length dst.old }
    ensures { Wrote dst.old at (joined keys (map (plain_segment ou_key) (reverse (drop from (units_view units))))) result dst.new }
{
    let mut next = at;
    for i in (from..units.size()).rev() {
        next = put_unit(dst, next, units.name(i));
    }
    next
}

// Writes an attribute that a record has once, if it is there.
fn put_single(dst: &mut [u8], at: usize, rec: Record, k: usize) -> usize
    requires key { k < single_count }
    requires room { at + length (joined keys (segments_at (view rec) k)) ≤ length dst.old }
    ensures { Wrote dst.old at (joined keys (segments_at (view rec) k)) result dst.new }
{
    let value = rec.single(k);
    if value.size() == 0 {
        return at;
    }
    put_segment(dst, at, k, value.text())
}

// Writes what the record has for one key, its first `from` levels left out.
fn put_key(dst: &mut [u8], at: usize, rec: Record, from: usize, k: usize) -> usize
    requires key { k < pn_key }
    requires room { at + length (joined keys (segments_at (remaining from (view rec)) k)) ≤ length dst.old }
    ensures { Wrote dst.old at (joined keys (segments_at (remaining from (view rec)) k)) result dst.new }
{
    match k {
        DD_KEY => put_dds(dst, at, rec.dds),
        OU_KEY => put_units(dst, at, rec.units, from.saturating_sub(OWN_LEVELS)),
        _ if k < from.min(OWN_LEVELS) => at,
        _ => put_single(dst, at, rec, k),
    }
}

// Writes what the record has for each key, in order, its first `from` levels left out.
fn put_keys(dst: &mut [u8], at: usize, rec: Record, from: usize) -> usize
    requires { at + length (joined keys (segments_in (remaining from (view rec)) order)) ≤ length dst.old }
    ensures { Wrote dst.old at (joined keys (segments_in (remaining from (view rec)) order)) result dst.new }
{
    let mut next = at;
    for k in ORDER {
        next = put_key(dst, next, rec, from, k);
    }
    next
}

// Writes the record text of a record, its first `from` levels left out.
pub fn write_text(dst: &mut [u8], at: usize, rec: Record, from: usize) -> usize
    requires { at + length (record_text keys (remaining from (view rec))) ≤ length dst.old }
    ensures { Wrote dst.old at (record_text keys (remaining from (view rec))) result dst.new }
{
    let next = put_keys(dst, at, rec, from);
    dst[next] = b'/';
    next + 1
}

// Whether the first four levels are empty when the first `from` are left out.
fn is_own_empty(rec: Record, from: usize) -> bool
    ensures { result ≡ all (λ s. not (non_empty s)) (take own_levels (remaining from (view rec)).single) }
{
    for k in from..OWN_LEVELS {
        if 0 < rec.single(k).size() {
            return false;
        }
    }
    true
}

// Whether only a name is left of a record when its first `from` levels are left out.
fn is_only_name(rec: Record, from: usize) -> bool
    ensures { result ≡ only_name (remaining from (view rec)) }
{
    is_own_empty(rec, from)
        && rec.units.size() <= from.saturating_sub(OWN_LEVELS)
        && rec.single(CN).size() == 0
        && rec.dds.size() == 0
}

// The name in a record.
fn name_in(rec: &Record) -> Name<'_>
    ensures { name_view result ≡ name_in (view rec.now) }
{
    let values = &rec.singles.values;
    Name {
        given: values[G].text(),
        initials: values[I].text(),
        surname: values[S].text(),
    }
}

// Whether what is left of a record is written as the short form of its name.
fn is_written_short(rec: Record, from: usize) -> bool
    ensures { result ≡ writes_short (remaining from (view rec)) }
{
    is_only_name(rec, from) && rec.single(GQ).size() == 0 && name_in(&rec).is_short()
}

// Writes what is left of a record for the local part, at the front of `dst`: the short form of a name, or record text.
pub fn write_local(dst: &mut [u8], rec: Record, from: usize) -> usize
    requires { length (local_text keys (remaining from (view rec))) ≤ length dst.old }
    ensures { Wrote dst.old 0 (local_text keys (remaining from (view rec))) result dst.new }
{
    if is_written_short(rec, from) {
        return name_in(&rec).put(dst, 0);
    }
    write_text(dst, 0, rec, from)
}
