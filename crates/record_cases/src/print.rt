// What the program prints of a record.
use cases::print::{Output, say, say_flag, say_number};
use oraddr::bounds::{LEVELS, SINGLES};
use oraddr::record::{Dds, Record, Units};
use oraddr::value::{DomainDefined, Text};
use oraddr_canonical::canonical::is_canonical;
use oraddr_same::same::same_record;

pub(crate) fn space(to: &mut Output) {
    say(to, b" ");
}

pub(crate) fn new_line(to: &mut Output) {
    say(to, b"\n");
}

// Prints a text of a record, and how many bytes past it are not 0.
fn print_held<const N: usize>(to: &mut Output, held: &Text<N>) {
    let text = held.text();
    say(to, text);
    say(to, b"|");
    let (_, past) = held.bytes.split_at(text.len());
    say_number(to, past.iter().filter(|b| **b != 0).count());
}

fn print_dd(to: &mut Output, d: &DomainDefined) {
    print_held(to, &d.kind);
    print_held(to, &d.value);
}

fn print_values(to: &mut Output, rec: Record) {
    for k in 0..SINGLES {
        print_held(to, &rec.single(k));
    }
}

fn print_levels(to: &mut Output, rec: Record) {
    for k in 0..LEVELS {
        print_held(to, &rec.level(k));
    }
}

// All places: those past the count are to be empty in a record that only additions made.
fn print_lists(to: &mut Output, units: Units, dds: Dds) {
    for (name, item) in units.names.iter().zip(&dds.items) {
        print_held(to, name);
        print_dd(to, item);
    }
}

// How many units and how many DDs there are.
fn print_counts(to: &mut Output, units: Units, dds: Dds) {
    say_number(to, units.size());
    say_number(to, dds.size());
}

// A space, whether it is canonical, whether it is the same as the other, and a space.
fn print_flags(to: &mut Output, rec: Record, other: Record) {
    space(to);
    say_flag(to, is_canonical(rec));
    say_flag(to, same_record(rec, other));
    space(to);
}

// The flags, the values, the levels, and the lists.
pub(crate) fn print_record(to: &mut Output, rec: Record, other: Record) {
    print_flags(to, rec, other);
    print_values(to, rec);
    print_levels(to, rec);
    print_counts(to, rec.units, rec.dds);
    print_lists(to, rec.units, rec.dds);
    new_line(to);
}
