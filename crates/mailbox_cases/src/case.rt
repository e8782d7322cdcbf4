// One case: a line read as a mailbox, in a buffer of a length.
// `n ≤ 9999` is what four digits spell.
ghost use Rattle.std.specs.Prelude.{◌≤◌};

use cases::print::{FILLED, Output, say, say_number, say_written};
use cases::read::{LARGEST, number, unhex};
use mailbox::entry::{MailboxFault, MailboxWritten, phrase_place, read_mailbox};
use mailbox::phrase::PhrasePlace;

// Room for the longest line: one that is longer than a mailbox's may be is a case too.
const LINE: usize = 4200;

// Where a refused line's phrase is told to stand: at the line's start.
const EMPTY_START: PhrasePlace = PhrasePlace { start: 0, size: 0 };

// Where a phrase stands.
fn print_place(to: &mut Output, place: PhrasePlace) {
    say(to, b" ");
    say_number(to, place.start);
    say(to, b" ");
    say_number(to, place.size);
}

fn print_read(to: &mut Output, done: Result<MailboxWritten, MailboxFault>, out: &[u8]) {
    match done {
        Ok(written) => {
            say_written(to, 0, written.size, out);
            print_place(to, written.phrase);
        }
        Err(fault) => {
            say_written(to, usize::from(fault), 0, out);
            print_place(to, EMPTY_START);
        }
    }
}

fn run_into(to: &mut Output, line: &[u8], out: &mut [u8]) {
    let done = read_mailbox(line, out);
    print_read(to, done, out);
    print_place(to, phrase_place(line));
    say(to, b"\n");
}

// A case in a buffer of n bytes.
fn run_case(to: &mut Output, line: &[u8], n: usize)
    requires { n ≤ 9999 }
{
    let mut out = [FILLED; LARGEST];
    run_into(to, line, &mut out[..n]);
}

// The digits at the front of a case, and the line in hexadecimal.
fn run_spelt(to: &mut Output, digits: &[u8], spelt: &[u8]) {
    let mut line = [0u8; LINE];
    let n = unhex(&mut line, spelt);
    run_case(to, &line[..n], number(digits));
}

pub(crate) fn run_line(to: &mut Output, case: &[u8]) {
    if case.len() < 5 {
        return;
    }
    run_spelt(to, &case[0..4], &case[5..]);
}
