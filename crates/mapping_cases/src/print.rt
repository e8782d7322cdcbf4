// What the program prints.
// That a record is canonical is asked beside it: most callers have proved it of what they made, and a type for it would be taken apart again by each reader.
ghost use Rattle.std.specs.Prelude.{◌≡◌, true, ◌≤◌, length};
ghost use Rattle.oraddr.specs.Canonical.{canonical_record};

use cases::print::{Output, say, say_number, say_written};
use mapping::answers::{AddressRefusal, RecordRefusal, Refusal};
use oraddr::record::Record;
use oraddr_canonical::canonical::is_canonical;
use oraddr_same::same::same_record;
use ortext_write::write::{LONGEST_TEXT, write_text};

// The record text of a canonical record.
fn print_text(to: &mut Output, rec: Record)
    requires { canonical_record rec ≡ true }
{
    let mut out = [0u8; LONGEST_TEXT];
    let n = write_text(&mut out, 0, rec, 0);
    say(to, &out[..n]);
}

// The text of a record that was mapped to; of any other but the empty one, that it is not empty.
fn print_record(to: &mut Output, rec: Record) {
    if is_canonical(rec) {
        print_text(to, rec);
    } else if !same_record(rec, Record::empty()) {
        say(to, b"not empty");
    }
}

// A number and a tab.
fn print_field(to: &mut Output, n: usize) {
    say_number(to, n);
    say(to, b"\t");
}

pub(crate) fn print_to_record(to: &mut Output, r: Result<Record, RecordRefusal>) {
    match r {
        Ok(rec) => {
            print_field(to, 0);
            print_field(to, 0);
            print_record(to, rec);
        }
        Err(refusal) => {
            print_field(to, refusal.number());
            print_field(to, refusal.line());
        }
    }
}

pub(crate) fn print_to_address(to: &mut Output, r: Result<usize, AddressRefusal>, out: &[u8]) {
    match r {
        Ok(n) => {
            print_field(to, 0);
            say_written(to, 0, n, out);
        }
        Err(refusal) => {
            print_field(to, refusal.line());
            say_written(to, refusal.number(), 0, out);
        }
    }
}
