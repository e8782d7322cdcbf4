// A text coded: how a character is, what the whole takes, and the writing of it.
// What is written goes to a place of a lent buffer, and where the next goes is told: `dst, at`, as in `put` of chars/src/write.rt.
ghost use Rattle.std.specs.Prelude.{◌≡◌, ◌+◌, ◌≤◌, length};
ghost use Rattle.chars.specs.Class.{is_char};
ghost use Rattle.chars.specs.Lists.{all};
ghost use Rattle.chars.specs.Write.{Wrote};
ghost use Rattle.restricted.specs.Answers.{coded_answer, short_answer, spelled};
ghost use Rattle.restricted.specs.Code.{code_char, coded, is_plain, numbered};

use crate::convert::RestrictedFault;
use chars::write::put;

// Whether a character stands for itself, range by range from the last one down, so that the letters, which most texts are made of, come
// first.
// A ladder, each step with its answer: with `matches!` of these ranges the coding of a text of letters cost two and a half times as much,
// and with `else if` for the steps that of one with spaces and parentheses a sixth more.
#[tactic(auto, using(std::proofs::lemmas::Bool::Decides::nat_tests, crate::proofs::Laws::Plain::plain_ranges))]
pub(crate) fn is_plain(b: u8) -> bool
    ensures { result ≡ is_plain b }
{
    if b'`' <= b {
        return b <= b'~';
    }
    if b'^' <= b {
        return b == b'^';
    }
    if b'?' <= b {
        return b <= b'Z';
    }
    if b':' <= b {
        return b == b'=';
    }
    if b'-' <= b {
        return true;
    }
    if b'*' <= b {
        return b <= b'+';
    }
    if b'$' <= b {
        return b <= b'\'';
    }
    b == b'!'
}

// How a character is coded: by a single byte, itself or the `_` of a space; by a letter between two `#`; or by its number.
#[derive(Clone, Copy)]
enum Coding {
    Single(u8),
    Short(u8),
    Number,
}

// A character's way of being coded.
fn coding_of(b: u8) -> Coding
    ensures { spelled b result ≡ code_char b }
{
    if is_plain(b) {
        return Coding::Single(b);
    }
    match b {
        b' ' => Coding::Single(b'_'),
        b'_' => Coding::Short(b'u'),
        b'(' => Coding::Short(b'l'),
        b')' => Coding::Short(b'r'),
        b',' => Coding::Short(b'm'),
        b':' => Coding::Short(b'c'),
        b'\\' => Coding::Short(b'b'),
        b'#' => Coding::Short(b'h'),
        _ => Coding::Number,
    }
}

// How many bytes a character takes.
fn coded_size(b: u8) -> usize
    ensures { result ≡ length (code_char b) }
{
    match coding_of(b) {
        Coding::Single(_) => 1,
        Coding::Short(_) => 3,
        Coding::Number => 5,
    }
}

// Whether no byte is over 127.
pub(crate) fn all_chars(s: &[u8]) -> bool
    ensures { result ≡ all is_char s.now }
{
    s.is_ascii()
}

// Why a text that does not fit is refused, once what stands before the rest of it is known to have no byte over 127.
#[tactic(auto, unfolding(crate::specs::Answers::short_answer))]
fn short_answer(rest: &[u8]) -> RestrictedFault
    ensures { result ≡ short_answer rest.now }
{
    if all_chars(rest) {
        RestrictedFault::ShortBuffer
    } else {
        RestrictedFault::ByteOver127
    }
}

// Whether a text can be coded and then fits. Its coded form, up to five times as long, is measured against the room that is left, so
// that no length of a text is too great.
pub(crate) fn judge_coded(s: &[u8], room: usize) -> Result<(), RestrictedFault>
    ensures { result ≡ coded_answer s.now room }
{
    let mut left = room;
    for (i, &b) in s.iter().enumerate() {
        if !b.is_ascii() {
            return Err(RestrictedFault::ByteOver127);
        }
        let n = coded_size(b);
        if left < n {
            return Err(short_answer(&s[i..]));
        }
        left -= n;
    }
    Ok(())
}

// Writes a character's number, three digits between two `#`.
#[tactic(auto, unfolding(crate::specs::Code::numbered))]
fn put_number(dst: &mut [u8], at: usize, b: u8) -> usize
    requires { at + 5 ≤ length dst.old }
    ensures { Wrote dst.old at (numbered b) result dst.new }
{
    let text = [
        b'#',
        b'0' + b / 100,
        b'0' + b / 10 % 10,
        b'0' + b % 10,
        b'#',
    ];
    put(dst, at, &text)
}

// Writes a character as it is coded.
fn put_char(dst: &mut [u8], at: usize, b: u8) -> usize
    requires { at + length (code_char b) ≤ length dst.old }
    ensures { Wrote dst.old at (code_char b) result dst.new }
{
    match coding_of(b) {
        Coding::Single(c) => put(dst, at, &[c]),
        Coding::Short(letter) => put(dst, at, &[b'#', letter, b'#']),
        Coding::Number => put_number(dst, at, b),
    }
}

// Writes a text's coded form to the front of `dst`, and returns its length.
pub(crate) fn put_coded(dst: &mut [u8], s: &[u8]) -> usize
    requires { length (coded s.now) ≤ length dst.old }
    ensures { Wrote dst.old 0 (coded s.now) result dst.new }
{
    let mut at = 0;
    for &b in s {
        at = put_char(dst, at, b);
    }
    at
}
