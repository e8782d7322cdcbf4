// A date and time, with its zone's offset.
ghost use Rattle.std.specs.Prelude.{◌≡◌, leb, nat_abs};
ghost use Rattle.date_read.specs.Date.{days_in, is_date, is_day, is_second, is_time, most_offset};

// Two digits of year; the second, where it is told; the offset in minutes, negative west of Greenwich.
#[derive(Clone, Copy)]
pub struct DateTime {
    pub year: usize,
    pub month: usize,
    pub day: usize,
    pub hour: usize,
    pub minute: usize,
    pub second: Option<usize>,
    pub offset: i32,
}

// The greatest that each number of a date can be, and the least offset.
const LAST_YEAR: usize = 99;

const LAST_MONTH: usize = 12;

pub const LAST_HOUR: usize = 23;

pub const LAST_MINUTE: usize = 59;

const LAST_SECOND: usize = 59;

const LEAST_OFFSET: i32 = -1439;

const MOST_OFFSET: i32 = 1439;

// The days of each month in a year that is no leap year; there is no month 0.
const MONTH_DAYS: [usize; 13] = [0, 31, 28, 31, 30, 31, 30, 31, 31, 30, 31, 30, 31];

// How many days February has.
fn february(year: usize) -> usize
    ensures { result ≡ days_in year 2 }
{
    if year % 4 == 0 { 29 } else { 28 }
}

// How many days a month has; none if it is no month.
fn days_in(year: usize, month: usize) -> usize
    ensures { result ≡ days_in year month }
{
    if month == 2 {
        february(year)
    } else if month <= LAST_MONTH {
        MONTH_DAYS[month]
    } else {
        0
    }
}

#[tactic(auto, unfolding(crate::specs::Date::is_second))]
fn is_second(second: Option<usize>) -> bool
    ensures { result ≡ is_second second }
{
    second.is_none_or(|n| n <= LAST_SECOND)
}

// Whether an offset is within a day.
fn is_offset(offset: i32) -> bool
    ensures { result ≡ leb (nat_abs offset) most_offset }
{
    (LEAST_OFFSET..=MOST_OFFSET).contains(&offset)
}

// Whether there is such a time of day.
#[tactic(auto, unfolding(crate::specs::Date::is_time))]
fn is_time(hour: usize, minute: usize, second: Option<usize>) -> bool
    ensures { result ≡ is_time hour minute second }
{
    hour <= LAST_HOUR && minute <= LAST_MINUTE && is_second(second)
}

// Whether there is such a day.
#[tactic(auto, unfolding(crate::specs::Date::is_day))]
fn is_day(year: usize, month: usize, day: usize) -> bool
    ensures { result ≡ is_day year month day }
{
    year <= LAST_YEAR && (1..=days_in(year, month)).contains(&day)
}

// Whether there is such a date.
#[tactic(auto, unfolding(crate::specs::Date::is_date))]
#[inline(always)]
pub fn is_date(d: DateTime) -> bool
    ensures { result ≡ is_date d }
{
    is_day(d.year, d.month, d.day) && is_time(d.hour, d.minute, d.second) && is_offset(d.offset)
}
