// One case: a text in one form to the other.
ghost use Rattle.std.specs.Prelude.{◌≤◌, length};

use crate::print::{print_buffer, print_text};
use cases::print::Output;
use dates::convert::{DateFault, date_to_utc, utc_to_date};

// Room for the longest text, and one byte more; what a buffer is filled with, a byte that no text has.
const ROOM: usize = 25;

const FILLED: u8 = b'.';

// A text converted, and what came of it printed.
fn run_text<F: FnOnce(&[u8], &mut [u8]) -> Result<usize, DateFault>>(
    to: &mut Output,
    convert: F,
    s: &[u8],
)
    requires { F.IsAlwaysCallable convert }
{
    let mut out = [FILLED; ROOM];
    let done = convert(s, &mut out);
    print_text(to, done, &out);
}

// The same in a buffer of n bytes.
fn run_in<F: FnOnce(&[u8], &mut [u8]) -> Result<usize, DateFault>>(
    to: &mut Output,
    convert: F,
    s: &[u8],
    n: usize,
)
    requires callable { F.IsAlwaysCallable convert }
    requires room { n ≤ 25 }
{
    let mut space = [FILLED; ROOM];
    let out = &mut space[..n];
    let done = convert(s, out);
    print_buffer(to, done, out);
}

// The same in a buffer of each length.
fn run_rooms<F: Fn(&[u8], &mut [u8]) -> Result<usize, DateFault>>(
    to: &mut Output,
    convert: F,
    s: &[u8],
)
    requires { F.IsAlwaysCallable convert }
{
    for n in 0..=ROOM {
        run_in(to, &convert, s, n);
    }
}

fn run_case(to: &mut Output, line: &[u8])
    requires { 2 ≤ length line.now }
{
    let text = &line[2..];
    match line[0] {
        b'U' => run_text(to, utc_to_date, text),
        b'R' => run_text(to, date_to_utc, text),
        b'u' => run_rooms(to, utc_to_date, text),
        _ => run_rooms(to, date_to_utc, text),
    }
}

// One line: a letter, a tab and a text.
pub(crate) fn run_line(to: &mut Output, line: &[u8]) {
    if line.len() < 2 {
        return;
    }
    run_case(to, line);
}
