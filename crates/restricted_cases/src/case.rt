// One case: a text coded, or read back, in a buffer of a length.
ghost use Rattle.std.specs.Prelude.{◌≤◌};

use cases::print::{FILLED, Output, say, say_written};
use cases::read::{LARGEST, number, unhex};
use restricted::convert::{RestrictedFault, restrict, unrestrict};

// Room for the longest text.
const TEXT: usize = 2048;

// A case in a buffer of n bytes: the text converted, and what came of it printed.
fn run_case<F: FnOnce(&[u8], &mut [u8]) -> Result<usize, RestrictedFault>>(
    to: &mut Output,
    convert: F,
    text: &[u8],
    n: usize,
)
    requires callable { F.IsAlwaysCallable convert }
    requires room { n ≤ 9999 }
{
    let mut space = [FILLED; LARGEST];
    let out = &mut space[..n];
    match convert(text, out) {
        Ok(size) => say_written(to, 0, size, out),
        Err(fault) => say_written(to, fault.into(), 0, out),
    }
    say(to, b"\n");
}

// A line's letter, the digits behind it, and the text in hexadecimal. The letter E codes the text, and D reads it back.
fn run_spelt(to: &mut Output, tag: u8, digits: &[u8], spelt: &[u8]) {
    let mut text = [0u8; TEXT];
    let n = unhex(&mut text, spelt);
    let text = &text[..n];
    let room = number(digits);
    if tag == b'E' {
        run_case(to, restrict, text, room);
    } else {
        run_case(to, unrestrict, text, room);
    }
}

pub(crate) fn run_line(to: &mut Output, line: &[u8]) {
    if line.len() < 7 {
        return;
    }
    run_spelt(to, line[0], &line[2..6], &line[7..]);
}
