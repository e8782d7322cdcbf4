// Dates, written.
// Each writes to a place of the one room of a date, and a date alone: asked of each, as a type for either would be made for one call of each.
ghost use Rattle.std.specs.Prelude.{◌≡◌, true, [], ◌∷◌, ◌++◌, ◌+◌, ◌-◌, ◌≤◌, nat_abs, get_or, length};
ghost use Rattle.chars.specs.Write.{Wrote};
ghost use Rattle.date_read.specs.Date.{is_date, last_month, most_offset};
ghost use Rattle.date_read.specs.Read.{month_names};
ghost use Rattle.dates.specs.Write.{date_room, date_second_text, date_text, sign_of, two, utc_second_text, utc_text, zone_text};

use chars::write::put;
use date_read::date::DateTime;
use date_read::read::MONTHS;

// Room for a date in either form.
pub const DATE_ROOM: usize = 32;

// Writes the last two digits of a number.
#[tactic(auto, unfolding(crate::specs::Write::two))]
fn put_two(dst: &mut [u8], at: usize, n: usize) -> usize
    requires { at + 2 ≤ length dst.old }
    ensures { Wrote dst.old at (two n) result dst.new }
{
    let digits = [b'0' + (n / 10 % 10) as u8, b'0' + (n % 10) as u8];
    put(dst, at, &digits)
}

// Writes an offset: its sign, and its hours and minutes, split again by signed division.
fn put_zone(dst: &mut [u8], at: usize, offset: i32) -> usize
    requires offset_bound { nat_abs offset ≤ most_offset }
    requires at_in_bounds { at + 5 ≤ length dst.old }
    ensures { Wrote dst.old at (zone_text offset) result dst.new }
{
    let hours = offset / 60;
    let minutes = offset % 60;
    let sign = sign_of(offset);
    let from = put(dst, at, &[sign]);
    let next = put_two(dst, from, hours.unsigned_abs() as usize);
    put_two(dst, next, minutes.unsigned_abs() as usize)
}

fn sign_of(offset: i32) -> u8
    ensures { result ≡ sign_of offset }
{
    if offset < 0 { b'-' } else { b'+' }
}

// Writes a month's name.
fn put_month(dst: &mut [u8], at: usize, month: usize) -> usize
    requires le_month { (1 ≤ month) × (month ≤ last_month) }
    requires at_in_bounds { at + 3 ≤ length dst.old }
    ensures { Wrote dst.old at (get_or month_names (month - 1) []) result dst.new }
{
    put(dst, at, &MONTHS[month - 1])
}

// Writes the seconds of a UTCTime.
fn put_utc_second(dst: &mut [u8], at: usize, second: Option<usize>) -> usize
    requires { at + 2 ≤ length dst.old }
    ensures { Wrote dst.old at (utc_second_text second) result dst.new }
{
    match second {
        Some(n) => put_two(dst, at, n),
        None => at,
    }
}

// Writes a byte, and the last two digits of a number behind it.
fn put_behind(dst: &mut [u8], at: usize, b: u8, n: usize) -> usize
    requires { at + 3 ≤ length dst.old }
    ensures { Wrote dst.old at (b ∷ two n) result dst.new }
{
    let next = put(dst, at, &[b]);
    put_two(dst, next, n)
}

// Writes the seconds of a date-time.
fn put_date_second(dst: &mut [u8], at: usize, second: Option<usize>) -> usize
    requires { at + 3 ≤ length dst.old }
    ensures { Wrote dst.old at (date_second_text second) result dst.new }
{
    match second {
        Some(n) => put_behind(dst, at, b':', n),
        None => at,
    }
}

// Writes the year, month and day of a UTCTime.
fn put_utc_day(dst: &mut [u8], d: DateTime) -> usize
    requires { length dst.old ≡ date_room }
    ensures { Wrote dst.old 0 (two d.year ++ two d.month ++ two d.day) result dst.new }
{
    let a = put_two(dst, 0, d.year);
    let b = put_two(dst, a, d.month);
    put_two(dst, b, d.day)
}

// Writes a date as a UTCTime to the front of `dst`.
pub fn write_utc(dst: &mut [u8], d: DateTime) -> usize
    requires d_value { is_date d ≡ true }
    requires dst_len { length dst.old ≡ date_room }
    ensures { Wrote dst.old 0 (utc_text d) result dst.new }
{
    let a = put_utc_day(dst, d);
    let b = put_two(dst, a, d.hour);
    let c = put_two(dst, b, d.minute);
    let e = put_utc_second(dst, c, d.second);
    put_zone(dst, e, d.offset)
}

// Writes the day, month and year of a date-time.
fn put_date_day(dst: &mut [u8], d: DateTime) -> usize
    requires d_value { is_date d ≡ true }
    requires dst_len { length dst.old ≡ date_room }
    ensures { Wrote dst.old 0 (two d.day ++ (32 ∷ []) ++ get_or month_names (d.month - 1) [] ++ (32 ∷ two d.year)) result dst.new }
{
    let a = put_two(dst, 0, d.day);
    let b = put(dst, a, b" ");
    let c = put_month(dst, b, d.month);
    put_behind(dst, c, b' ', d.year)
}

// Writes a date as a date-time to the front of `dst`.
pub fn write_date(dst: &mut [u8], d: DateTime) -> usize
    requires d_value { is_date d ≡ true }
    requires dst_len { length dst.old ≡ date_room }
    ensures { Wrote dst.old 0 (date_text d) result dst.new }
{
    let a = put_date_day(dst, d);
    let b = put_behind(dst, a, b' ', d.hour);
    let c = put_behind(dst, b, b':', d.minute);
    let e = put_date_second(dst, c, d.second);
    let f = put(dst, e, b" ");
    put_zone(dst, f, d.offset)
}
