// The canonical test, part by part. A record is any input: one with a length or a count out of range is not canonical.
// An attribute's number is bounded where it is used: it indexes the one table of bounds, and loops count over it.
ghost use Rattle.std.specs.Prelude.{◌≡◌, ◌&&◌, ◌<◌};
ghost use Rattle.chars.specs.Lists.{non_empty};
ghost use Rattle.oraddr.specs.Attributes.{single_of};
ghost use Rattle.oraddr.specs.Bounds.{entries, is_value, single_count};
ghost use Rattle.oraddr.specs.Canonical.{canonical_dds, canonical_record, canonical_singles, canonical_units, identified, is_dd, is_unit, kept, names_with_surname};
ghost use Rattle.oraddr.specs.View.{dd_in_range, dd_view, held_text, text_in_range, value_view, unit_view, view};

use oraddr::bounds::{
    ADMD, C, CN, DD_TYPE, DD_VALUE, G, GQ, I, MOST, OU, S, VALUE_ROOM, is_value, keeps_rule,
};
use oraddr::record::{Dds, Record, Singles, Units};
use oraddr::value::{DomainDefined, OrgUnit, Text, Value};

// Whether a text is in range, and a value within bound k.
fn is_held<const N: usize>(k: usize, text: &Text<N>) -> bool
    requires { k < entries }
    ensures { result ≡ (text_in_range text.now && is_value k (held_text text.now)) }
{
    text.len <= N && is_value(k, text.text())
}

// In range, and absent or by the rule of the attribute with the number k.
#[tactic(auto, unfolding(oraddr::specs::Canonical::kept, chars::specs::Lists::non_empty))]
fn is_kept(k: usize, value: &Value) -> bool
    requires { k < single_count }
    ensures { result ≡ (text_in_range value.now && kept k (value_view value.now)) }
{
    value.len == 0 || value.len <= VALUE_ROOM && keeps_rule(k, value.text())
}

#[tactic(auto, unfolding(oraddr::specs::Canonical::is_unit))]
fn is_unit(name: &OrgUnit) -> bool
    ensures { result ≡ (text_in_range name.now && is_unit (unit_view name.now)) }
{
    is_held(OU, name)
}

#[tactic(auto, unfolding(oraddr::specs::View::dd_in_range, oraddr::specs::View::dd_view, oraddr::specs::Canonical::is_dd))]
fn is_dd(item: &DomainDefined) -> bool
    ensures { result ≡ (dd_in_range item.now && is_dd (dd_view item.now)) }
{
    is_held(DD_TYPE, &item.kind) && is_held(DD_VALUE, &item.value)
}

fn canonical_singles(all: &Singles) -> bool
    ensures { result ≡ canonical_singles all.now }
{
    all.values
        .iter()
        .enumerate()
        .all(|(k, value)| is_kept(k, value))
}

#[tactic(auto, unfolding(oraddr::specs::Canonical::canonical_units, oraddr::specs::View::units_in_range))]
fn canonical_units(units: &Units) -> bool
    ensures { result ≡ canonical_units units.now }
{
    let count = units.count;
    count <= MOST && units.names[..count].iter().all(is_unit)
}

#[tactic(auto, unfolding(oraddr::specs::Canonical::canonical_dds, oraddr::specs::View::dds_in_range))]
fn canonical_dds(dds: &Dds) -> bool
    ensures { result ≡ canonical_dds dds.now }
{
    let count = dds.count;
    count <= MOST && dds.items[..count].iter().all(is_dd)
}

// Whether the attribute with the number k is present.
#[tactic(auto, unfolding(oraddr::specs::Attributes::single_of, oraddr::specs::View::view, chars::specs::Lists::non_empty), using(oraddr::proofs::Laws::View::single_view))]
fn has(rec: &Record, k: usize) -> bool
    requires { k < single_count }
    ensures { result ≡ non_empty (single_of (view rec.now) k) }
{
    !rec.singles.values[k].text().is_empty()
}

// G, I and GQ only with S.
#[tactic(auto, unfolding(oraddr::specs::Canonical::names_with_surname))]
fn has_names_with_surname(rec: &Record) -> bool
    ensures { result ≡ names_with_surname (view rec.now) }
{
    has(rec, S) || !has(rec, G) && !has(rec, I) && !has(rec, GQ)
}

// S, a common name or at least one DD.
#[tactic(auto, unfolding(oraddr::specs::Canonical::identified, oraddr::specs::View::view, oraddr::specs::View::dds_view, chars::specs::Lists::non_empty))]
fn is_identified(rec: &Record) -> bool
    ensures { result ≡ identified (view rec.now) }
{
    has(rec, S) || has(rec, CN) || 0 < rec.dds.size()
}

#[tactic(auto, using(crate::proofs::Laws::record_order))]
pub fn is_canonical(rec: Record) -> bool
    ensures { result ≡ canonical_record rec }
{
    has(&rec, C)
        && has(&rec, ADMD)
        && canonical_singles(&rec.singles)
        && canonical_units(&rec.units)
        && canonical_dds(&rec.dds)
        && has_names_with_surname(&rec)
        && is_identified(&rec)
}
