// Record text taken apart: a segment `key=value` at a time, as places in the text, with the quoting left on.
ghost use Rattle.std.specs.Prelude.{◌≡◌, ◌+◌, ◌<◌, eqb, length, drop, unwrap_or, ◌||◌, []};
ghost use Rattle.ortext_segments.specs.Keys.{key_count, keys};
ghost use Rattle.ortext_segments.specs.Segments.{key_run, plain_key};
ghost use Rattle.ortext_segments.specs.Scan.{Segmenting, further, kind_from, stop_run, value_from};

use crate::keys::{DD_KEY, SHORT_KEYS, UNKNOWN, key_number};
use chars::class::{is_label_char, is_printable};
use chars::parts::byte_at;

// A place in a text: where it starts, and how long it is. One that starts at 0 stands for nothing.
#[derive(Clone, Copy)]
pub struct Span {
    pub start: usize,
    pub len: usize,
}

pub const NO_SPAN: Span = Span { start: 0, len: 0 };

// A segment: its key's number, where a DD's type and the value stand, and where what follows the slash behind it starts. The
// type of a short key has no place: what the key spells is the type.
#[derive(Clone, Copy)]
pub struct Segment {
    pub key: usize,
    pub kind: Span,
    pub value: Span,
    pub next: usize,
}

// Where a key that starts at `from` ends.
fn key_end(s: &[u8], from: usize) -> usize
    ensures { result ≡ from + key_run (drop from s.now) }
{
    for i in from..s.len() {
        if !is_label_char(s[i]) {
            return i;
        }
    }
    from.max(s.len())
}

// Whether a byte ends a type or a value: a slash or an equals sign.
pub fn is_stop(b: u8) -> bool
    ensures { result ≡ (eqb b 47 || eqb b 61) }
{
    matches!(b, b'/' | b'=')
}

// Where a type or a value that starts at `from` ends: at the next slash or equals sign that is not quoted.
fn text_end(s: &[u8], from: usize) -> Option<usize>
    ensures { result ≡ further from (stop_run (drop from s.now)) }
{
    let mut i = from;
    // while: what a `$` quotes is passed over with it
    while i < s.len() {
        let b = s[i];
        if is_stop(b) {
            return Some(i);
        }
        if b == b'$' {
            if !is_printable(byte_at(s, i + 1)) {
                return None;
            }
            i += 2;
        } else {
            i += 1;
        }
    }
    None
}

// The segment whose value starts at `from`.
fn with_value(s: &[u8], key: usize, kind: Span, from: usize) -> Option<Segment>
    ensures { result ≡ value_from s.now key kind from }
{
    let end = text_end(s, from)?;
    if s[end] != b'/' {
        return None;
    }
    Some(Segment {
        key,
        kind,
        value: Span {
            start: from,
            len: end - from,
        },
        next: end + 1,
    })
}

// The segment of a DD whose type starts at `from`.
fn with_kind(s: &[u8], from: usize) -> Option<Segment>
    ensures { result ≡ kind_from s.now from }
{
    let end = text_end(s, from)?;
    if s[end] != b'=' {
        return None;
    }
    let kind = Span {
        start: from,
        len: end - from,
    };
    with_value(s, DD_KEY, kind, end + 1)
}

// The number that a key with no dot has in a segment. It is a number and no enum: `Segment` has numbers, those of the table of bounds first.
#[tactic(auto, unfolding(crate::specs::Segments::plain_key, crate::specs::Keys::keys))]
fn plain_key(number: Option<usize>) -> usize
    ensures { result ≡ (plain_key keys (unwrap_or number key_count) []).key }
{
    match number {
        Some(k) if k < SHORT_KEYS && k != DD_KEY => k,
        Some(SHORT_KEYS) => DD_KEY, // the short key of a DD
        _ => UNKNOWN,
    }
}

// The segment that starts at `from`, behind a slash that is not the last of the text.
pub fn read_segment(s: &[u8], from: usize) -> Option<Segment>
    requires { from < length s.now }
    ensures { Segmenting s.now from result }
{
    let end = key_end(s, from);
    if end == from {
        return None;
    }
    let number = key_number(&s[from..end]);
    let b = byte_at(s, end);
    if b == b'=' {
        return with_value(s, plain_key(number), NO_SPAN, end + 1);
    }
    if b != b'.' || number != Some(DD_KEY) {
        return None;
    }
    with_kind(s, end + 1)
}
