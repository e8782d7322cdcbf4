// Record text, and a local part, read into a record (document 01, "Address to record" steps 2 to 4).
// `Named` holds places without their text, which travels beside it; that they lie in it is asked.
ghost use Rattle.std.specs.Prelude.{◌≡◌};
ghost use Rattle.ortext_segments.specs.Keys.{keys};
ghost use Rattle.ortext_read.specs.Apply.{finish, read_as_name, read_local, read_text};
ghost use Rattle.ortext_name.specs.Name.{read_name};
ghost use Rattle.ortext_read.specs.Answers.{read_held, reading_result, told_reading};
ghost use Rattle.ortext_named.specs.Named.{AllSound};
ghost use Rattle.oraddr.specs.Add.{told};

use oraddr::add::{Added, Addition};
use oraddr::bounds::{ADMD, C};
use oraddr::record::Record;
use ortext_build::build::{add_name, add_named};
use ortext_name::name::read_name;
use ortext_named::named::Named;
use ortext_segments::scan::read_segment;

// Why a text gives no record: it does not read, names what no record may have, or names a settled level again. All three are document 01's
// number 4.
#[derive(Clone, Copy, Debug, PartialEq, Eq)]
pub enum TextFault {
    Unread,
    Refused,
    Again,
}

// The end of a reading: the record after all additions, completed, or the refusal. C present without ADMD means that ADMD is one space.
fn finished(done: &Addition) -> Result<Record, TextFault>
    ensures { told_reading result ≡ reading_result (finish (told done.now)) }
{
    if let Added::Refused = done.answer {
        return Err(TextFault::Refused);
    }
    let rec = &done.record;
    if rec.single(C).size() == 0 || 0 < rec.single(ADMD).size() {
        return Ok(*rec);
    }
    Ok(rec.with_single(ADMD, b" ").record)
}

// What the segments of a text name, once they are all read.
fn applied(rec: Record, s: &[u8], named: Named) -> Result<Record, TextFault>
    requires { AllSound s.now named }
    ensures { told_reading result ≡ reading_result (read_held s.now named rec) }
{
    if named.again {
        return Err(TextFault::Again);
    }
    if named.bad || named.is_beside() {
        return Err(TextFault::Refused);
    }
    finished(&add_named(rec, s, named))
}

// Reads `s` as record text over a record with the first n levels settled.
pub fn read_text(rec: Record, n: usize, s: &[u8]) -> Result<Record, TextFault>
    ensures { told_reading result ≡ reading_result (read_text keys n rec s.now) }
{
    if s.len() < 2 || s[0] != b'/' {
        return Err(TextFault::Unread);
    }
    let mut named = Named::nothing();
    let mut at = 1;
    // while: a segment says where the next one starts
    while at < s.len() {
        let Some(f) = read_segment(s, at) else {
            return Err(TextFault::Unread);
        };
        named = named.with(f, n);
        at = f.next;
    }
    applied(rec, s, named)
}

// Reads `s` as a personal name.
fn as_name(rec: Record, s: &[u8]) -> Result<Record, TextFault>
    ensures { told_reading result ≡ reading_result (read_as_name rec (read_name s.now)) }
{
    match read_name(s) {
        Some(places) => finished(&add_name(rec, s, places)),
        None => Err(TextFault::Unread),
    }
}

// Reads `s`, an unquoted local part, as record text or else as a personal name. What the first reading came to is handed on whole: taking
// its record out and putting it back would copy it.
pub fn read_local(rec: Record, n: usize, s: &[u8]) -> Result<Record, TextFault>
    ensures { told_reading result ≡ reading_result (read_local keys n rec s.now) }
{
    let first = read_text(rec, n, s);
    match first {
        Ok(_) => first,
        Err(fault) => match fault {
            TextFault::Unread => as_name(rec, s),
            TextFault::Refused | TextFault::Again => first,
        },
    }
}
