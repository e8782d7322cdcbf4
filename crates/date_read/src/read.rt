// Dates, read. A part that is not there ends the reading by `?`. In the definitions it counts as a number that no date has, so that there one
// test of the whole decides: 100 for a number, 1,440 minutes for an offset, 0 for a month.
// What is inline here, and `is_date`, is so for speed: with calls, whose answers go through memory, a date took up to 1.7 times as long.
ghost use Rattle.std.specs.Prelude.{◌≡◌, ◌≤◌, IfSome, map, take, drop, unwrap_or};
ghost use Rattle.std.specs.Borrow.{Bor};
ghost use Rattle.date_read.specs.Date.{most_offset};
ghost use Rattle.date_read.specs.Read.{no_number, no_offset, number_in, offset_of, one_digit, signed, spaced_at, two_digits, zone_of};
ghost use Rattle.date_read.specs.Read.{kept, last_place, read_body, read_date, read_rest, read_utc, rest_end, rest_with, utc_end, utc_with};

use crate::date::{DateTime, LAST_HOUR, LAST_MINUTE, is_date};
use chars::case::same_text;
use chars::class::is_digit;
use chars::parts::byte_at;

// The names of the months, and of the days.
pub const MONTHS: [[u8; 3]; 12] = [
    *b"Jan", *b"Feb", *b"Mar", *b"Apr", *b"May", *b"Jun", *b"Jul", *b"Aug", *b"Sep", *b"Oct",
    *b"Nov", *b"Dec",
];

const DAYS: [[u8; 3]; 7] = [
    *b"Mon", *b"Tue", *b"Wed", *b"Thu", *b"Fri", *b"Sat", *b"Sun",
];

// The number that one digit at a place spells.
fn one_digit(s: &[u8], k: usize) -> Option<usize>
    ensures value { unwrap_or result no_number ≡ one_digit s.now k }
    ensures most { IfSome result (λ n. n ≤ 9) }
{
    let b = byte_at(s, k);
    if is_digit(b) {
        Some(usize::from(b - b'0'))
    } else {
        None
    }
}

// The number that two digits at a place spell.
#[inline(always)]
fn two_digits(s: &[u8], k: usize) -> Option<usize>
    requires { k ≤ last_place }
    ensures value { unwrap_or result no_number ≡ two_digits s.now k }
    ensures most { IfSome result (λ n. n ≤ 99) }
{
    let tens = one_digit(s, k)?;
    let ones = one_digit(s, k + 1)?;
    Some(tens * 10 + ones)
}

// The number, from 1, of the first of the names that a text is, case aside.
fn number_in(names: &[[u8; 3]], s: &[u8]) -> Option<usize>
    ensures value { unwrap_or result 0 ≡ number_in 1 names.now s.now }
    ensures least { IfSome result (λ n. 1 ≤ n) }
{
    let place = names.iter().position(|name| same_text(name, s))?;
    Some(place + 1)
}

// Signed minutes, made from sign and number.
fn signed_minutes(minus: bool, n: usize) -> i32
    requires { n ≤ most_offset }
    ensures { result ≡ signed minus n }
{
    let m = n as i32;
    if minus { -m } else { m }
}

// A sign with hhmm, in minutes.
fn offset_of(s: &[u8]) -> Option<i32>
    ensures { unwrap_or result no_offset ≡ offset_of s.now }
{
    if s.len() != 5 {
        return None;
    }
    let sign = s[0];
    if sign != b'+' && sign != b'-' {
        return None;
    }
    let hours = two_digits(s, 1)?;
    let minutes = two_digits(s, 3)?;
    if LAST_HOUR < hours || LAST_MINUTE < minutes {
        return None;
    }
    Some(signed_minutes(sign == b'-', hours * 60 + minutes))
}

// A zone, by one of the names of no offset or by its offset.
#[inline(always)]
fn zone_of(names: &[&[u8]], s: &[u8]) -> Option<i32>
    ensures { unwrap_or result no_offset ≡ zone_of (map (λ n. n.now) names.now) s.now }
{
    if names.iter().any(|name| same_text(name, s)) {
        return Some(0);
    }
    offset_of(s)
}

// A date, if there is such a one.
#[tactic(auto, unfolding(crate::specs::Read::kept))]
#[inline(always)]
fn if_date(d: DateTime) -> Option<DateTime>
    ensures { result ≡ kept d }
{
    is_date(d).then_some(d)
}

// The part of a text from a place on; none past its end.
fn behind(s: &[u8], k: usize) -> &[u8]
    ensures { result.now ≡ drop k s.now }
{
    &s[k.min(s.len())..]
}

// The three bytes from a place on, or as many as there are.
pub fn three(s: &[u8], k: usize) -> &[u8]
    ensures { result.now ≡ take 3 (drop k s.now) }
{
    let rest = behind(s, k);
    &rest[..rest.len().min(3)]
}

// Where the seconds of a UTCTime end, which are there where a digit follows the minutes.
#[tactic(auto, unfolding(crate::specs::Read::utc_end))]
fn utc_end(s: &[u8]) -> usize
    ensures { result ≡ utc_end s.now }
{
    if is_digit(byte_at(s, 10)) { 12 } else { 10 }
}

// Reads a UTCTime.
pub fn read_utc(s: &[u8]) -> Option<DateTime>
    ensures { result ≡ read_utc s.now }
{
    let end = utc_end(s);
    let second = if end == 12 {
        Some(two_digits(s, 10)?)
    } else {
        None
    };
    let offset = zone_of(&[b"Z"], behind(s, end))?;
    utc_with(s, second, offset)
}

// The rest of a UTCTime, with these seconds and this offset.
fn utc_with(s: &[u8], second: Option<usize>, offset: i32) -> Option<DateTime>
    ensures { result ≡ kept (utc_with s.now second offset) }
{
    if_date(DateTime {
        year: two_digits(s, 0)?,
        month: two_digits(s, 2)?,
        day: two_digits(s, 4)?,
        hour: two_digits(s, 6)?,
        minute: two_digits(s, 8)?,
        second,
        offset,
    })
}

// Whether the spaces and the colon of a date-time stand where they should, in what follows the day.
#[tactic(auto, unfolding(crate::specs::Read::spaced_at))]
fn is_spaced(r: &[u8], end: usize) -> bool
    ensures { result ≡ spaced_at r.now end }
{
    byte_at(r, 0) == b' '
        && byte_at(r, 4) == b' '
        && byte_at(r, 7) == b' '
        && byte_at(r, 10) == b':'
        && byte_at(r, end) == b' '
}

// What follows the day, with these seconds and this offset.
fn rest_with(r: &[u8], day: usize, second: Option<usize>, offset: i32) -> Option<DateTime>
    ensures { result ≡ kept (rest_with r.now day second offset) }
{
    if_date(DateTime {
        year: two_digits(r, 5)?,
        month: number_in(&MONTHS, three(r, 1))?,
        day,
        hour: two_digits(r, 8)?,
        minute: two_digits(r, 11)?,
        second,
        offset,
    })
}

// What follows the day.
fn read_rest(r: &[u8], day: usize) -> Option<DateTime>
    ensures { result ≡ read_rest day r.now }
{
    let end = rest_end(r);
    if !is_spaced(r, end) {
        return None;
    }
    let second = if end == 16 {
        Some(two_digits(r, 14)?)
    } else {
        None
    };
    let offset = zone_of(&[b"GMT", b"UT"], behind(r, end + 1))?;
    rest_with(r, day, second, offset)
}

// Where the seconds of a date-time end, which are there where a colon follows the minutes.
#[tactic(auto, unfolding(crate::specs::Read::rest_end))]
fn rest_end(r: &[u8]) -> usize
    ensures { result ≡ rest_end r.now }
{
    if byte_at(r, 13) == b':' { 16 } else { 13 }
}

// Reads a date-time that begins with its day.
fn read_body(b: &[u8]) -> Option<DateTime>
    ensures { result ≡ read_body b.now }
{
    if byte_at(b, 1) == b' ' {
        read_rest(behind(b, 1), one_digit(b, 0)?)
    } else {
        read_rest(behind(b, 2), two_digits(b, 0)?)
    }
}

// Reads a date-time.
pub fn read_date(s: &[u8]) -> Option<DateTime>
    ensures { result ≡ read_date s.now }
{
    if byte_at(s, 3) != b',' {
        return read_body(s);
    }
    if byte_at(s, 4) != b' ' {
        return None;
    }
    number_in(&DAYS, three(s, 0))?;
    read_body(behind(s, 5))
}
