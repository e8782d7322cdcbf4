// Records as any caller may fill them, whatever their lengths and counts say. A part of a record is:
//   its place in four digits: a value's number, 9 to 12 for a unit, 13 to 16 for a DD
//   the count of units, or of DDs, that it leaves, in four digits
//   its length in four digits, and what stands at the front of its room; of a DD the type so, its room full, and then the value
// The number 9999 stands for the largest length or count there is.

use cases::parts::{front, rest};
use cases::read::{LARGEST, number};
use oraddr::bounds::{DD_TYPE_ROOM, MOST, SINGLES};
use oraddr::record::{Dds, Record, Singles, Units};
use oraddr::value::{DomainDefined, Text};

// The length or the count that four digits stand for.
fn size(s: &[u8]) -> usize {
    match number(s) {
        LARGEST => usize::MAX,
        n => n,
    }
}

// The text behind four digits, as much of it as there is room for, of the length that they tell.
fn text_of<const N: usize>(s: &[u8]) -> Text<N> {
    let mut text = Text::of(front(rest(s, 4), N));
    text.len = size(s);
    text
}

fn with_value(mut singles: Singles, k: usize, s: &[u8]) -> Singles {
    if k < SINGLES {
        singles.values[k] = text_of(s);
    }
    singles
}

fn with_unit(mut units: Units, k: usize, count: usize, s: &[u8]) -> Units {
    units.count = count;
    if k < MOST {
        units.names[k] = text_of(s);
    }
    units
}

fn dd(s: &[u8]) -> DomainDefined {
    DomainDefined {
        kind: text_of(s),
        value: text_of(rest(s, 4 + DD_TYPE_ROOM)),
    }
}

fn with_dd(mut dds: Dds, k: usize, count: usize, s: &[u8]) -> Dds {
    dds.count = count;
    if k < MOST {
        dds.items[k] = dd(s);
    }
    dds
}

fn with_part(mut rec: Record, s: &[u8]) -> Record {
    let k = number(s);
    let count = size(rest(s, 4));
    let text = rest(s, 8);
    if k < SINGLES {
        rec.singles = with_value(rec.singles, k, text);
    } else if k < SINGLES + MOST {
        rec.units = with_unit(rec.units, k - SINGLES, count, text);
    } else {
        rec.dds = with_dd(rec.dds, k - SINGLES - MOST, count, text);
    }
    rec
}

// The record of the parts in a text, in front of each its length in four digits.
pub(crate) fn filled(s: &[u8]) -> Record {
    let mut rec = Record::empty();
    let mut left = s;
    // while: a part is as long as its four digits say, so nothing counts it
    while !left.is_empty() {
        let n = number(left);
        rec = with_part(rec, front(rest(left, 4), n));
        left = rest(left, 4 + n);
    }
    rec
}
