// The commands, one at a time.
// How long a case may be is asked where it is used: `main` alone reads lines, and a struct for one would be made for each.
ghost use Rattle.std.specs.Prelude.{◌≤◌, length};
ghost use Rattle.address_cases.specs.Limits.{longest_case};

use cases::parts::{first_field, front, rest, second_field};
use cases::print::{Output, say, say_flag, say_number};
use cases::read::unhex;
use mailaddr::code::{decode, put_coded};
use mailaddr::domain::{count_parts, is_domain, part_start};
use mailaddr::shape::{
    AddressFault, LONGEST_ADDRESS, Parted, is_readable, put_local, read_shape, unquote_local,
};
use mailaddr::tail::shared_tail;

// Room for any text here: the longest of the input, every character of it escaped.
const ROOM: usize = 8192;

// The longest text that is looked at, one byte longer than an address; the cases have none longer.
const LONGEST_CASE: usize = LONGEST_ADDRESS + 1;

// A number, and a space.
fn say_count(to: &mut Output, n: usize) {
    say_number(to, n);
    say(to, b" ");
}

// Whether something holds, and a space.
fn say_bit(to: &mut Output, b: bool) {
    say_flag(to, b);
    say(to, b" ");
}

fn print_local(to: &mut Output, s: &[u8]) {
    say_bit(to, is_readable(s));
    say(to, s);
}

fn print_unquoted(to: &mut Output, s: &[u8], parted: Parted)
    requires s_len_bound { length s.now ≤ longest_case }
    requires at_in_bounds { parted.at ≤ length s.now }
{
    let mut out = [0u8; ROOM];
    let n = unquote_local(&mut out, s, parted);
    print_local(to, front(&out, n));
}

fn print_parted(to: &mut Output, s: &[u8], parted: Parted)
    requires { length s.now ≤ longest_case }
{
    say(to, b"0 ");
    say_count(to, parted.at);
    say_bit(to, parted.quoted);
    if parted.at <= s.len() {
        print_unquoted(to, s, parted);
    }
}

fn print_shape(to: &mut Output, s: &[u8])
    requires { length s.now ≤ longest_case }
{
    match read_shape(s) {
        Ok(parted) => print_parted(to, s, parted),
        Err(AddressFault::TooLong) => say(to, b"2"),
        Err(AddressFault::NoShape) => say(to, b"1"),
    }
}

fn print_coded(to: &mut Output, s: &[u8])
    requires { length s.now ≤ longest_case }
{
    let mut out = [0u8; 128];
    let n = put_coded(&mut out, s);
    say_count(to, n);
    say(to, front(&out, n));
}

fn print_decoded(to: &mut Output, s: &[u8])
    requires { length s.now ≤ longest_case }
{
    let mut out = [0u8; ROOM];
    match decode(&mut out, s) {
        Some(n) => {
            say(to, b"0 ");
            say(to, front(&out, n));
        }
        None => say(to, b"5"),
    }
}

// A local part, quoted where it has to be.
fn print_quoted(to: &mut Output, s: &[u8])
    requires { length s.now ≤ longest_case }
{
    let mut out = [0u8; ROOM];
    let n = put_local(&mut out, 0, s);
    say(to, front(&out, n));
}

fn print_address(to: &mut Output, s: &[u8], domain: &[u8])
    requires { length s.now ≤ longest_case }
{
    print_quoted(to, s);
    say(to, b"@");
    say(to, domain);
}

// The parts from the right, each with a bar behind it.
fn print_each_part(to: &mut Output, s: &[u8]) {
    let mut end = s.len();
    // loop: from the right, each part in front of the one before it, by the function that is tried here
    loop {
        let start = part_start(s, end);
        say(to, &s[start..end]);
        say(to, b"|");
        if start == 0 {
            return;
        }
        end = start - 1;
    }
}

fn print_parts(to: &mut Output, s: &[u8]) {
    say_count(to, count_parts(s));
    say_bit(to, is_domain(s));
    print_each_part(to, s);
}

fn print_tail(to: &mut Output, a: &[u8], b: &[u8]) {
    let tail = shared_tail(a, b);
    say_count(to, a.len() - tail.len());
    say(to, tail);
}

// A command on one text or two.
fn run_command(to: &mut Output, command: u8, first: &[u8], second: &[u8])
    requires { length first.now ≤ longest_case }
{
    match command {
        b'S' => print_shape(to, first),
        b'C' => print_coded(to, first),
        b'D' => print_decoded(to, first),
        b'P' => print_parts(to, first),
        b'Q' => print_address(to, first, second),
        _ => print_tail(to, first, second),
    }
    say(to, b"\n");
}

// A command on texts, the first of which is no longer than what is looked at.
fn run_texts(to: &mut Output, command: u8, first: &[u8], second: &[u8]) {
    if LONGEST_CASE < first.len() {
        return;
    }
    run_command(to, command, first, second);
}

// A command, and its texts in hexadecimal.
fn run_spelt(to: &mut Output, command: u8, first: &[u8], second: &[u8]) {
    let mut one = [0u8; ROOM];
    let mut two = [0u8; ROOM];
    let n = unhex(&mut one, first);
    let m = unhex(&mut two, second);
    run_texts(to, command, front(&one, n), front(&two, m));
}

// One line: a command, a tab and the texts.
pub(crate) fn run_line(to: &mut Output, line: &[u8]) {
    if line.len() < 2 {
        return;
    }
    let texts = rest(line, 2);
    run_spelt(to, line[0], first_field(texts), second_field(texts));
}
