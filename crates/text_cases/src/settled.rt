// Records with levels settled, as a domain settles them.
ghost use Rattle.std.specs.Prelude.{◌≡◌, ◌≤◌};

use oraddr::add::Addition;
use oraddr::record::Record;

// How many levels a digit settles.
pub(crate) fn levels(digit: u8) -> usize
    ensures { result ≤ 8 }
{
    match digit {
        b'1'..=b'8' => (digit - b'0') as usize,
        b'9' => 3,
        _ => 0,
    }
}

// How many levels have a value: after 9 the last of them is left out.
fn filled(digit: u8) -> usize {
    if digit == b'9' { 2 } else { levels(digit) }
}

fn with_single(rec: Record, k: usize) -> Addition
    ensures { result.record.dds ≡ rec.dds }
{
    match k {
        0 => rec.with_single(0, b"XY"),
        1 => rec.with_single(1, b"P"),
        2 => rec.with_single(2, b"TOW"),
        _ => rec.with_single(3, b"brack"),
    }
}

fn with_unit(rec: Record, k: usize) -> Addition
    ensures { result.record.dds ≡ rec.dds }
{
    match k {
        4 => rec.with_unit(b"u1"),
        5 => rec.with_unit(b"u2"),
        6 => rec.with_unit(b"u3"),
        _ => rec.with_unit(b"u4"),
    }
}

fn with_level(rec: Record, k: usize) -> Record
    ensures { result.dds ≡ rec.dds }
{
    if k < 4 {
        with_single(rec, k).record
    } else {
        with_unit(rec, k).record
    }
}

// The record with the levels that a digit settles. No DD is settled.
pub(crate) fn base(digit: u8) -> Record
    ensures { result.dds.count ≡ 0 }
{
    let mut rec = Record::empty();
    for k in 0..filled(digit) {
        rec = with_level(rec, k);
    }
    rec
}
