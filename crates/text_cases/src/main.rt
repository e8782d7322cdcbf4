// Runs the cases of `ortext` that stand in stdin, and prints what comes of each. The cases and what must be printed are made
// by tests/text_cases.py, which follows document 01 by itself and runs nothing of the library.
//
// Standard input is lines; each is a command byte, a digit and a text:
//   T n TEXT    read TEXT as record text
//   L n TEXT    read TEXT as a local part: record text, or else a name
//   N 0 TEXT    read TEXT as a personal name
// The digit says how many levels are settled first, of XY, P, TOW, brack, u1, u2, u3, u4; 9 settles XY, P and an omitted
// PRMD. What is printed of a reading: unread, refused, again, or whether the record is canonical and, if it is, its record
// text, and its local part with none to all eight of its levels left out.
#![tactic(auto)]

mod print;
mod settled;

ghost use Rattle.std.specs.Prelude.{◌≤◌, length};

use cases::lines::lines_of;
use cases::print::{Output, say};
use cases::run::read_and_run;
use print::{print_name, print_reading};
use settled::{base, levels};
use std::io;

// Standard input, at most.
const ROOM: usize = 262144;

fn run_text(to: &mut Output, digit: u8, text: &[u8]) {
    print_reading(
        to,
        ortext_read::read::read_text(base(digit), levels(digit), text),
    );
}

fn run_local(to: &mut Output, digit: u8, text: &[u8]) {
    print_reading(
        to,
        ortext_read::read::read_local(base(digit), levels(digit), text),
    );
}

fn run_case(to: &mut Output, line: &[u8])
    requires { 2 ≤ length line.now }
{
    let text = &line[2..];
    match line[0] {
        b'N' => print_name(to, text),
        b'T' => run_text(to, line[1], text),
        _ => run_local(to, line[1], text),
    }
}

// One line: a command, a digit and a text.
fn run_line(to: &mut Output, line: &[u8]) {
    if line.len() < 2 {
        return;
    }
    run_case(to, line);
    say(to, b"\n");
}

fn run(to: &mut Output, s: &[u8]) {
    for line in lines_of(s) {
        run_line(to, line);
    }
}

fn main(rt: HostRuntime) -> io::Result<()> {
    let mut space = [0u8; ROOM];
    read_and_run(rt.stdin(), rt.stdout(), &mut space, run)
}
