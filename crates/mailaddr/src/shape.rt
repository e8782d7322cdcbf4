// The accepted shape of an address, and its local part unquoted and quoted.
// A bound on a place is asked where it is used: it ties two parameters of one call, and a struct of the two would be made for each.
// A buffer is lent with room for all of the text, which is asked: nothing is allocated, and whose room it is only the caller knows.
// What is written goes to a place of a lent buffer, and where the next goes is told: `dst, at`, as in `put` of chars/src/write.rt.
ghost use Rattle.std.specs.Prelude.{◌≡◌, ◌+◌, ◌≤◌, ◌<◌, ◌&&◌, ◌||◌, cond, [], ◌∷◌, eqb, ltb, drop, get_or, length};
ghost use Rattle.chars.specs.Write.{Wrote};
ghost use Rattle.mailaddr.specs.Answers.{from_shape, local_at, shape_answer, shaping};
ghost use Rattle.mailaddr.specs.Shape.{closing, escaped, is_readable, is_text, more, plain_shape, quoted_local, quoted_shape, unescaped, with_local};

use chars::class::Class;
use chars::parts::{byte_at, is_atoms, is_parted, part_end};
use chars::write::put;

// The longest address.
pub const LONGEST_ADDRESS: usize = 2304;

// Where the `@` of an address stands: the local part is before it and the domain behind it; and whether the local part is a
// quoted string, a fact of its own on which no value hangs.
#[derive(Clone, Copy)]
pub struct Parted {
    pub at: usize,
    pub quoted: bool,
}

// Why a text is no address: document 01's refusals 2 and 1.
#[derive(Clone, Copy)]
pub enum AddressFault {
    TooLong,
    NoShape,
}

// Bytes 32 to 126, which a quoted string has.
#[tactic(auto, using(std::proofs::lemmas::Bool::Decides::nat_tests), unfolding(crate::specs::Shape::is_text, chars::specs::Class::between))]
pub fn is_quoted_byte(b: u8) -> bool
    ensures { result ≡ is_text b }
{
    matches!(b, b' '..=b'~')
}

// Where the character from `i` on stands: behind its backslash, or at `i`.
fn char_at(s: &[u8], i: usize) -> usize
    requires { i < length s.now }
    ensures { result ≡ cond (eqb (get_or s.now i 0) 92 && ltb (i + 1) (length s.now)) (i + 1) i }
{
    if s[i] == b'\\' && i + 1 < s.len() {
        i + 1
    } else {
        i
    }
}

// Where a quoted string that opened before `from` ends: behind its closing quote.
fn closing_quote(s: &[u8], from: usize) -> Option<usize>
    ensures { result ≡ more from (closing (drop from s.now)) }
{
    let mut i = from;
    // while: a backslash takes two bytes, so nothing counts it
    while i < s.len() {
        if s[i] == b'"' {
            return Some(i + 1);
        }
        let at = char_at(s, i);
        let taken = s[at];
        if !is_quoted_byte(taken) {
            return None;
        }
        i = at + 1;
    }
    None
}

// The address whose local part ends at `at`.
fn with_local(s: &[u8], at: usize, quoted: bool) -> Result<Parted, AddressFault>
    ensures { shape_answer s.now result ≡ from_shape (with_local quoted at s.now) }
{
    if byte_at(s, at) != b'@' || !is_atoms(&s[at + 1..]) {
        return Err(AddressFault::NoShape);
    }
    Ok(Parted { at, quoted })
}

// The address whose local part is a quoted string.
fn quoted_shape(s: &[u8]) -> Result<Parted, AddressFault>
    ensures { shape_answer s.now result ≡ from_shape (quoted_shape s.now (closing (drop 1 s.now))) }
{
    let Some(at) = closing_quote(s, 1) else {
        return Err(AddressFault::NoShape);
    };
    with_local(s, at, true)
}

// The address whose local part is atoms joined by dots.
fn plain_shape(s: &[u8]) -> Result<Parted, AddressFault>
    ensures { shape_answer s.now result ≡ from_shape (plain_shape s.now) }
{
    let at = part_end(s, 0, b'@');
    if !is_atoms(&s[..at]) {
        return Err(AddressFault::NoShape);
    }
    with_local(s, at, false)
}

// The parts of an address.
pub fn read_shape(s: &[u8]) -> Result<Parted, AddressFault>
    ensures { shape_answer s.now result ≡ shaping s.now }
{
    if LONGEST_ADDRESS < s.len() {
        return Err(AddressFault::TooLong);
    }
    if byte_at(s, 0) == b'"' {
        return quoted_shape(s);
    }
    plain_shape(s)
}

// Copies a text without its backslashes to the front of `dst`, and returns its length.
fn unescape(dst: &mut [u8], s: &[u8]) -> usize
    requires { length s.now ≤ length dst.old }
    ensures { Wrote dst.old 0 (unescaped s.now) result dst.new }
{
    let mut n = 0;
    let mut i = 0;
    // while: a backslash takes two bytes, so nothing counts it
    while i < s.len() {
        let from = char_at(s, i);
        dst[n] = s[from];
        n += 1;
        i = from + 1;
    }
    n
}

// Writes the unquoted local part of an address to the front of `dst`, and returns its length.
pub fn unquote_local(dst: &mut [u8], s: &[u8], parted: Parted) -> usize
    requires s_in_bounds { length s.now ≤ length dst.old }
    requires at_in_bounds { parted.at ≤ length s.now }
    ensures { Wrote dst.old 0 (local_at s.now parted) result dst.new }
{
    let at = parted.at;
    if !parted.quoted {
        return put(dst, 0, &s[..at]);
    }
    if at < 2 {
        return 0;
    }
    unescape(dst, &s[1..at - 1])
}

// Whether an unquoted local part can be read: not empty, well spaced, and of the printable string set and `$`.
pub fn is_readable(s: &[u8]) -> bool
    ensures { result ≡ is_readable s.now }
{
    is_parted(s, b' ', Class::Quotable)
}

// Whether a backslash goes before the byte.
pub fn needs_backslash(b: u8) -> bool
    ensures { result ≡ (eqb b 34 || eqb b 92) }
{
    b == b'"' || b == b'\\'
}

// Writes a byte, with a backslash before a quote or a backslash.
fn put_byte(dst: &mut [u8], at: usize, b: u8) -> usize
    requires { at + length (escaped (b ∷ [])) ≤ length dst.old }
    ensures { Wrote dst.old at (escaped (b ∷ [])) result dst.new }
{
    if !needs_backslash(b) {
        dst[at] = b;
        return at + 1;
    }
    dst[at] = b'\\';
    dst[at + 1] = b;
    at + 2
}

// Writes a text with a backslash before each quote and backslash.
pub fn put_escaped(dst: &mut [u8], at: usize, s: &[u8]) -> usize
    requires { at + length (escaped s.now) ≤ length dst.old }
    ensures { Wrote dst.old at (escaped s.now) result dst.new }
{
    let mut next = at;
    for &b in s {
        next = put_byte(dst, next, b);
    }
    next
}

// Writes a local part's text, quoted where it is not atoms joined by dots.
pub fn put_local(dst: &mut [u8], at: usize, s: &[u8]) -> usize
    requires { at + length (quoted_local s.now) ≤ length dst.old }
    ensures { Wrote dst.old at (quoted_local s.now) result dst.new }
{
    if is_atoms(s) {
        return put(dst, at, s);
    }
    dst[at] = b'"';
    let end = put_escaped(dst, at + 1, s);
    dst[end] = b'"';
    end + 1
}
