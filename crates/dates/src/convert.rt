// The entry points: a date in one form to the other, in a lent buffer.
// A date's room, and that it is one, are asked where they are used: a type for either would be made for one call of each.
ghost use Rattle.std.specs.Prelude.{◌≡◌, ◌≤◌, IfSome, List, Option, ℕ, length, true};
ghost use Rattle.chars.specs.Write.{Wrote};
ghost use Rattle.dates.specs.Answers.{date_number, told};
ghost use Rattle.dates.specs.Convert.{converted, date_to_utc, utc_to_date};
ghost use Rattle.date_read.specs.Date.{is_date};
ghost use Rattle.date_read.specs.Read.{read_date as read_date_form, read_utc as read_utc_form};
ghost use Rattle.date_read.specs.declared.date.DateTime.{DateTime};
ghost use Rattle.dates.specs.Write.{date_room, date_text, utc_text};

use crate::write::{DATE_ROOM, write_date, write_utc};
use chars::write::place;
use date_read::date::DateTime;
use date_read::read::{read_date, read_utc};

// Why a text is not converted.
#[derive(Clone, Copy, Debug, PartialEq, Eq)]
pub enum DateFault {
    NoDate,
    ShortBuffer,
}

// Request 6's number for a refusal.
impl From<DateFault> for usize {
    ghost from_gives = { λ fault number. number ≡ date_number fault };

    fn from(fault: DateFault) -> usize {
        match fault {
            DateFault::NoDate => 10,
            DateFault::ShortBuffer => 6,
        }
    }
}

// A form in which a date is read and written.
trait Form {
    // The date that a text in this form tells, and a date's text.
    ghost told_by: { List ℕ → Option DateTime };

    ghost text_of: { DateTime → List ℕ };

    fn read(s: &[u8]) -> Option<DateTime>
        ensures value { result ≡ told_by s.now }
        ensures dated { IfSome result (λ d. is_date d ≡ true) };

    fn write(dst: &mut [u8], d: DateTime) -> usize
        requires d_value { is_date d ≡ true }
        requires dst_len { length dst.old ≡ date_room }
        ensures written { Wrote dst.old 0 (text_of d) result dst.new }
        ensures fits { result ≤ date_room };
}

// X.400's UTCTime.
struct UtcTime;

impl Form for UtcTime {
    ghost told_by = { read_utc_form };

    ghost text_of = { utc_text };

    fn read(s: &[u8]) -> Option<DateTime> {
        read_utc(s)
    }

    fn write(dst: &mut [u8], d: DateTime) -> usize {
        write_utc(dst, d)
    }
}

// RFC 822's date-time.
struct MailTime;

impl Form for MailTime {
    ghost told_by = { read_date_form };

    ghost text_of = { date_text };

    fn read(s: &[u8]) -> Option<DateTime> {
        read_date(s)
    }

    fn write(dst: &mut [u8], d: DateTime) -> usize {
        write_date(dst, d)
    }
}

// A date in one form to another.
fn convert<A: Form, B: Form>(s: &[u8], out: &mut [u8]) -> Result<usize, DateFault>
    ensures { told result out.new ≡ converted B.text_of (A.told_by s.now) out.old }
{
    let d = A::read(s).ok_or(DateFault::NoDate)?;
    let mut text = [0u8; DATE_ROOM];
    let n = B::write(&mut text, d);
    place(out, &text[..n]).ok_or(DateFault::ShortBuffer)
}

// A UTCTime to a date-time: its length, or the refusal.
#[tactic(auto, unfolding(crate::specs::Convert::utc_to_date))]
pub fn utc_to_date(utc: &[u8], out: &mut [u8]) -> Result<usize, DateFault>
    ensures { told result out.new ≡ utc_to_date utc.now out.old }
{
    convert::<UtcTime, MailTime>(utc, out)
}

// A date-time to a UTCTime: its length, or the refusal.
#[tactic(auto, unfolding(crate::specs::Convert::date_to_utc))]
pub fn date_to_utc(date: &[u8], out: &mut [u8]) -> Result<usize, DateFault>
    ensures { told result out.new ≡ date_to_utc date.now out.old }
{
    convert::<MailTime, UtcTime>(date, out)
}
