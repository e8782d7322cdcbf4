// The commands that change the record: additions, and lengths and counts set to anything.
use crate::print::print_record;
use cases::parts::{front, rest};
use cases::print::{Output, say_number};
use cases::read::{LARGEST, number};
use chars::parts::byte_at;
use oraddr::add::{Added, Addition, Attribute};
use oraddr::bounds::MOST;
use oraddr::record::{Dds, Record, Singles, Units};

// The attribute that a command adds.
fn attribute(tag: u8) -> Attribute {
    match tag {
        b'c' => Attribute::C,
        b'a' => Attribute::Admd,
        b'p' => Attribute::Prmd,
        b'o' => Attribute::O,
        b'n' => Attribute::Cn,
        b's' => Attribute::S,
        b'g' => Attribute::G,
        b'i' => Attribute::I,
        _ => Attribute::Gq,
    }
}

// Prints the number of an addition's answer.
fn told(to: &mut Output, a: Addition) -> Record {
    match a.answer {
        Added::Done => say_number(to, 0),
        Added::Refused => say_number(to, 4),
    }
    a.record
}

fn disturb_values(singles: &mut Singles, k: usize, n: usize) {
    if let Some(value) = singles.values.get_mut(k) {
        value.len = n;
    }
}

// The length of unit i, or past the units their count.
fn disturb_units(units: &mut Units, i: usize, n: usize) {
    if let Some(name) = units.names.get_mut(i) {
        name.len = n;
    } else {
        units.count = n;
    }
}

// The length of a DD's type, or behind the types of its value, or past both the count of DDs.
fn disturb_dds(dds: &mut Dds, i: usize, n: usize) {
    if i < MOST {
        dds.items[i].kind.len = n;
    } else if i < MOST + MOST {
        dds.items[i - MOST].value.len = n;
    } else {
        dds.count = n;
    }
}

// The length or the count that a number stands for.
fn size(n: usize) -> usize {
    if n == LARGEST { usize::MAX } else { n }
}

fn disturb(mut rec: Record, tag: u8, place: usize, n: usize) -> Record {
    match tag {
        b'L' => disturb_values(&mut rec.singles, place, n),
        b'M' => disturb_units(&mut rec.units, place, n),
        _ => disturb_dds(&mut rec.dds, place, n),
    }
    rec
}

// The record after a command.
fn change(to: &mut Output, rec: Record, s: &[u8]) -> Record {
    let tag = byte_at(s, 0);
    let n = number(rest(s, 1));
    let text = rest(s, 5);
    match tag {
        b'L' | b'M' | b'T' => disturb(rec, tag, byte_at(text, 0) as usize, size(n)),
        b'd' => told(to, rec.with_dd(front(text, n), rest(text, n))),
        b'u' => told(to, rec.with_unit(text)),
        _ => told(to, rec.with(attribute(tag), text)),
    }
}

// The record that commands make, in front of each its length in four digits.
fn made(to: &mut Output, s: &[u8]) -> Record {
    let mut rec = Record::empty();
    let mut left = s;
    // while: a command is as long as its four digits say
    while !left.is_empty() {
        let n = number(left);
        rec = change(to, rec, front(rest(left, 4), n));
        left = rest(left, 4 + n);
    }
    rec
}

// A record and the one before it, whose commands are as many bytes as four digits say.
pub(crate) fn run_record(to: &mut Output, s: &[u8]) {
    let text = rest(s, 4);
    let n = number(s);
    let other = made(to, front(text, n));
    let rec = made(to, rest(text, n));
    print_record(to, rec, other);
}
