// What is printed: texts, numbers, and what a call wrote into its buffer.
ghost use Rattle.std.specs.Prelude.{◌≡◌, IfErr};
ghost use Rattle.cases.specs.Print.{filled_from};

use crate::parts::{front, rest};
use std::io;
use std::io::{Stdout, Write};

// What a buffer is filled with before a call: a byte that no text has.
pub const FILLED: u8 = 255;

// Standard output, and what came of the writes to it: behind one that failed nothing is written, and its error stays.
#[derive(Drop)]
pub struct Output {
    stream: Stdout,
    written: io::Result<()>,
}

impl Output {
    pub fn new(stream: Stdout) -> Output
        ensures { result.written ≡ Ok tt }
    {
        Output {
            stream,
            written: Ok(()),
        }
    }

    // What came of all writes: the error of the one that failed.
    pub fn written(self) -> io::Result<()>
        ensures { result ≡ self.written }
    {
        self.written
    }
}

pub fn say(to: &mut Output, s: &[u8])
    ensures { IfErr to.old.written (λ _. to.new.written ≡ to.old.written) }
{
    if to.written.is_ok() {
        to.written = Write::write_all(&mut to.stream, s);
    }
}

pub fn say_number(to: &mut Output, n: usize)
    ensures { IfErr to.old.written (λ _. to.new.written ≡ to.old.written) }
{
    if to.written.is_ok() {
        to.written = write!(to.stream, "{n}");
    }
}

// Whether something holds, as 1 or 0.
pub fn say_flag(to: &mut Output, b: bool) {
    say(to, if b { b"1" } else { b"0" });
}

// A byte as two hexadecimal digits.
fn say_byte(to: &mut Output, b: u8) {
    let digits = b"0123456789abcdef";
    let text = [digits[(b / 16) as usize], digits[(b % 16) as usize]];
    say(to, &text);
}

// The first n bytes of a buffer, or all of it, in hexadecimal.
fn say_front(to: &mut Output, out: &[u8], n: usize) {
    for &b in front(out, n) {
        say_byte(to, b);
    }
}

// Whether the buffer, from a place on, holds what it was filled with.
fn is_filled(out: &[u8], from: usize) -> bool
    ensures { result ≡ filled_from from out.now }
{
    rest(out, from).iter().all(|&b| b == FILLED)
}

// The mark for the rest of the buffer.
fn say_rest(to: &mut Output, kept: bool) {
    say(to, if kept { b"=" } else { b"!" });
}

// What a call told and wrote: the number, the length that is told, the front of the buffer of that length in hexadecimal, and whether the rest
// of the buffer is as before (`=`) or not (`!`), one space apart.
pub fn say_written(to: &mut Output, number: usize, size: usize, out: &[u8]) {
    say_number(to, number);
    say(to, b" ");
    say_number(to, size);
    say(to, b" ");
    say_front(to, out, size);
    say(to, b" ");
    say_rest(to, is_filled(out, size));
}
