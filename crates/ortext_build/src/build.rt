// The attributes that a record text names, added to a record one at a time.
// An attribute's number is bounded where it is used: it indexes the one table of bounds, and loops count over it.
// `Named` holds places without their text, which travels beside it; that they lie in it is asked.
ghost use Rattle.std.specs.Prelude.{◌≡◌, [], ◌∷◌, map, ◌+◌, ◌*◌, ◌<◌, ◌≤◌, drop, length, take, MatchOption};
ghost use Rattle.std.proofs.Math.Option.{some};
ghost use Rattle.oraddr.specs.Bounds.{bound_of, dd_value, I, single_count};
ghost use Rattle.oraddr.specs.Add.{add_dd, add_unit, told};
ghost use Rattle.ortext_build.specs.Adding.{Fronted, add_dds, add_held, add_name, add_pn, add_singles, add_units, dd_at, done, held_dds, held_units, start};
ghost use Rattle.ortext_name.specs.Places.{Placed, letters_at, name_at};
ghost use Rattle.ortext_segments.specs.Scan.{span_text};
ghost use Rattle.ortext_named.specs.Named.{AllSound, Sound};

use oraddr::add::{Added, Addition};
use oraddr::bounds::{DD_VALUE_ROOM, G, I, S, SINGLES};
use oraddr::record::Record;
use ortext_name::name::{NamePlaces, put_initials, read_name};
use ortext_named::named::{DdPlaces, Named};
use ortext_segments::keys::{PN_KEY, SHORT_KEYS, key_name};
use ortext_segments::scan::Span;

// The longest text, with its quoting, that can still keep a bound: each character of the longest value quoted.
const ROOM: usize = 2 * DD_VALUE_ROOM;

// Writes what stands at a span, the quoting taken off, to the front of a room, and says how long it is; none where it is too long to keep a
// bound.
fn unquote(room: &mut [u8; ROOM], s: &[u8], span: Span) -> Option<usize>
    requires { span.start + span.len ≤ length s.now }
    ensures { MatchOption result (2 * bound_of dd_value < span.len) (λ n. Fronted (span_text s.now span) n room.new) }
{
    if ROOM < span.len {
        return None;
    }
    let part = &s[span.start..span.start + span.len];
    let mut n = 0;
    let mut is_quoted = false;
    for b in part {
        if *b == b'$' && !is_quoted {
            is_quoted = true; // the byte behind it
            continue;
        }
        room[n] = *b;
        n += 1;
        is_quoted = false;
    }
    Some(n)
}

fn refused(rec: Record) -> Addition
    ensures { told result ≡ record { number = 4; record' = rec } }
{
    Addition {
        record: rec,
        answer: Added::Refused,
    }
}

fn unchanged(rec: Record) -> Addition
    ensures { told result ≡ start rec }
{
    Addition {
        record: rec,
        answer: Added::Done,
    }
}

// Adds the attribute with the number k; an empty value is absent.
fn add_value(rec: Record, k: usize, value: &[u8]) -> Addition
    requires { k < single_count }
    ensures { told result ≡ add_singles k (value.now ∷ []) (start rec) }
{
    if value.is_empty() {
        return unchanged(rec);
    }
    rec.with_single(k, value)
}

// Adds the attribute with the number k that a text names at a span.
fn add_single(rec: Record, s: &[u8], k: usize, span: Span) -> Addition
    requires key { k < single_count }
    requires sound { Sound s.now span }
    ensures { told result ≡ add_singles k (span_text s.now span ∷ []) (start rec) }
{
    let mut text = [0u8; ROOM];
    match unquote(&mut text, s, span) {
        Some(n) => add_value(rec, k, &text[..n]),
        None => refused(rec),
    }
}

fn add_unit(rec: Record, s: &[u8], span: Span) -> Addition
    requires { Sound s.now span }
    ensures { told result ≡ add_unit rec (span_text s.now span) }
{
    let mut text = [0u8; ROOM];
    match unquote(&mut text, s, span) {
        Some(n) => rec.with_unit(&text[..n]),
        None => refused(rec),
    }
}

// Adds a DD whose value stands at a span.
fn add_typed(rec: Record, kind: &[u8], s: &[u8], value: Span) -> Addition
    requires { Sound s.now value }
    ensures { told result ≡ add_dd rec kind.now (span_text s.now value) }
{
    let mut text = [0u8; ROOM];
    match unquote(&mut text, s, value) {
        Some(n) => rec.with_dd(kind, &text[..n]),
        None => refused(rec),
    }
}

// Adds a DD, its type at a span, or what the short key spells.
fn add_dd(rec: Record, s: &[u8], places: DdPlaces) -> Addition
    requires kind { Sound s.now places.kind }
    requires value { Sound s.now places.value }
    ensures { told result ≡ add_dd rec (dd_at s.now places).kind (dd_at s.now places).value }
{
    if places.kind.start == 0 {
        return add_typed(rec, key_name(SHORT_KEYS), s, places.value);
    }
    let mut text = [0u8; ROOM];
    match unquote(&mut text, s, places.kind) {
        Some(n) => add_typed(rec, &text[..n], s, places.value),
        None => refused(rec),
    }
}

// Adds the attributes that a text names once, but for PN.
fn add_singles(rec: Record, s: &[u8], named: Named) -> Addition
    requires { AllSound s.now named }
    ensures { told result ≡ add_singles 0 (map (span_text s.now) (take single_count named.once)) (start rec) }
{
    let mut next = rec;
    for k in 0..SINGLES {
        let span = named.once[k];
        if span.len == 0 {
            continue; // not named: no record is copied for it
        }
        let done = add_single(next, s, k, span);
        let Added::Done = done.answer else {
            return done;
        };
        next = done.record;
    }
    unchanged(next)
}

// Adds n initials, which stand each with a dot.
fn add_initials(rec: Record, text: &[u8], from: usize, n: usize) -> Addition
    requires { from + 2 * n ≤ length text.now }
    ensures { told result ≡ add_singles I (letters_at n (drop from text.now) ∷ []) (start rec) }
{
    if ROOM < n {
        return refused(rec);
    }
    let mut letters = [0u8; ROOM];
    put_initials(&mut letters, text, from, n);
    add_value(rec, I, &letters[..n])
}

// Adds the surname, the given name and the initials that a text is read as.
pub fn add_name(rec: Record, text: &[u8], places: NamePlaces) -> Addition
    requires { Placed text.now places }
    ensures { told result ≡ add_name rec (some (name_at text.now places)) }
{
    let a = add_value(rec, S, &text[places.surname..]);
    let Added::Done = a.answer else {
        return a;
    };
    let b = add_value(a.record, G, &text[..places.given]);
    let Added::Done = b.answer else {
        return b;
    };
    if places.initials == 0 {
        return b;
    }
    add_initials(b.record, text, places.from, places.initials)
}

// Adds the name that PN gives; where it is not named, nothing.
fn add_pn(rec: Record, s: &[u8], span: Span) -> Addition
    requires { Sound s.now span }
    ensures { done (told result) ≡ done (add_pn s.now span rec) }
{
    if span.len == 0 {
        return unchanged(rec);
    }
    let mut text = [0u8; ROOM];
    let Some(n) = unquote(&mut text, s, span) else {
        return refused(rec);
    };
    let part = &text[..n];
    match read_name(part) {
        Some(places) => add_name(rec, part, places),
        None => refused(rec),
    }
}

// Adds to what came before the units that a text names, the rightmost first: it is the most significant.
fn add_units(before: Addition, s: &[u8], named: Named) -> Addition
    requires { AllSound s.now named }
    ensures { told result ≡ add_units (held_units s.now named) (told before) }
{
    let mut done = before;
    for i in (0..named.unit_count).rev() {
        let Added::Done = done.answer else {
            return done;
        };
        done = add_unit(done.record, s, named.units[i]);
    }
    done
}

// Adds to what came before the DDs that a text names.
fn add_dds(before: Addition, s: &[u8], named: Named) -> Addition
    requires { AllSound s.now named }
    ensures { told result ≡ add_dds (held_dds s.now named) (told before) }
{
    let mut done = before;
    for i in 0..named.dd_count {
        let Added::Done = done.answer else {
            return done;
        };
        done = add_dd(done.record, s, named.dds[i]);
    }
    done
}

// Adds all that a text names: the attributes that stand once, the name that PN gives, the units and the DDs.
pub fn add_named(rec: Record, s: &[u8], named: Named) -> Addition
    requires { AllSound s.now named }
    ensures { done (told result) ≡ done (add_held s.now named rec) }
{
    let singles = add_singles(rec, s, named);
    let Added::Done = singles.answer else {
        return singles;
    };
    let name = add_pn(singles.record, s, named.once[PN_KEY]);
    let Added::Done = name.answer else {
        return name;
    };
    add_dds(add_units(name, s, named), s, named)
}
