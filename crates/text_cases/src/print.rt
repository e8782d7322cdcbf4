// What the program prints of a reading and of a name.
// That a record is canonical is asked beside it: most callers have proved it of what they made, and a type for it would be taken apart again by each reader.
ghost use Rattle.std.specs.Prelude.{◌≡◌, true, ◌+◌, ◌*◌, ◌≤◌, length};
ghost use Rattle.oraddr.specs.Canonical.{canonical_record};
ghost use Rattle.ortext_name.specs.Places.{Placed};

use cases::print::{Output, say};
use oraddr::record::Record;
use oraddr_canonical::canonical::is_canonical;
use ortext_name::name::{NamePlaces, put_initials, read_name};
use ortext_read::read::TextFault;
use ortext_write::write::{LONGEST_TEXT, write_local, write_text};

// The record text of a canonical record.
fn print_text(to: &mut Output, rec: Record)
    requires { canonical_record rec ≡ true }
{
    let mut out = [0u8; LONGEST_TEXT];
    let n = write_text(&mut out, 0, rec, 0);
    say(to, &out[..n]);
}

// A tab, and the local part of a canonical record with its first `from` levels left out.
fn print_local(to: &mut Output, rec: Record, from: usize)
    requires { canonical_record rec ≡ true }
{
    say(to, b"\t");
    let mut out = [0u8; LONGEST_TEXT];
    let n = write_local(&mut out, rec, from);
    say(to, &out[..n]);
}

// The local part of a canonical record with none to all eight levels left out.
fn print_locals(to: &mut Output, rec: Record)
    requires { canonical_record rec ≡ true }
{
    for from in 0..9 {
        print_local(to, rec, from);
    }
}

fn print_record(to: &mut Output, rec: Record) {
    if !is_canonical(rec) {
        say(to, b"0");
        return;
    }
    say(to, b"1\t");
    print_text(to, rec);
    print_locals(to, rec);
}

pub(crate) fn print_reading(to: &mut Output, read: Result<Record, TextFault>) {
    match read {
        Ok(rec) => print_record(to, rec),
        Err(TextFault::Unread) => say(to, b"unread"),
        Err(TextFault::Refused) => say(to, b"refused"),
        Err(TextFault::Again) => say(to, b"again"),
    }
}

// The initials of a name, of which there are few.
fn print_initials(to: &mut Output, s: &[u8], from: usize, n: usize)
    requires { from + 2 * n ≤ length s.now }
{
    if LONGEST_TEXT < n {
        return;
    }
    let mut letters = [0u8; LONGEST_TEXT];
    put_initials(&mut letters, s, from, n);
    say(to, &letters[..n]);
}

// The pieces of a name: given name, initials, surname.
fn print_places(to: &mut Output, s: &[u8], p: NamePlaces)
    requires { Placed s.now p }
{
    say(to, &s[..p.given]);
    say(to, b"\t");
    print_initials(to, s, p.from, p.initials);
    say(to, b"\t");
    say(to, &s[p.surname..]);
}

pub(crate) fn print_name(to: &mut Output, s: &[u8]) {
    match read_name(s) {
        Some(p) => print_places(to, s, p),
        None => say(to, b"no name"),
    }
}
