// Coded text parsed: what stands at a place, how many characters the whole stands for, and the writing of these.
// A bound on a place is asked where it is used: it ties two parameters of one call, and a struct of the two would be made for each.
ghost use Rattle.std.specs.Prelude.{◌≡◌, ◌∷◌, ◌≤◌, ◌<◌, IfSome, length, drop, unwrap_or};
ghost use Rattle.std.proofs.Math.Option.{some};
ghost use Rattle.chars.specs.Write.{Wrote};
ghost use Rattle.restricted.specs.Answers.{Grouped, Measured, short_group, unparsed_answer};
ghost use Rattle.restricted.specs.Code.{char_of, decoded, parse};

use crate::code::{all_chars, is_plain};
use crate::convert::RestrictedFault;
use chars::case::fold_case;
use chars::digits::character_at;
use chars::parts::byte_at;

// The character that a letter stands for between two `#`.
fn char_of(letter: u8) -> Option<u8>
    ensures value { unwrap_or result 0 ≡ char_of letter }
    ensures there { IfSome result (λ char. 1 ≤ char) }
{
    match fold_case(letter) {
        b'u' => Some(b'_'),
        b'l' => Some(b'('),
        b'r' => Some(b')'),
        b'm' => Some(b','),
        b'c' => Some(b':'),
        b'b' => Some(b'\\'),
        b'h' => Some(b'#'),
        b'e' => Some(b'='),
        b's' => Some(b'/'),
        _ => None,
    }
}

// The character of a letter and a `#` at a place.
fn short_at(s: &[u8], at: usize) -> Option<u8>
    requires { at ≤ length s.now }
    ensures value { unwrap_or result 0 ≡ short_group (drop at s.now) }
    ensures there { IfSome result (λ char. 1 ≤ char) }
{
    if byte_at(s, at + 1) != b'#' {
        return None;
    }
    char_of(byte_at(s, at))
}

// A character, and how many bytes it is coded by.
#[derive(Clone, Copy)]
struct Group {
    char: u8,
    len: usize,
}

// What stands at a place behind a `#`.
fn behind_hash(s: &[u8], at: usize) -> Option<Group>
    requires { at ≤ length s.now }
    ensures { Grouped (35 ∷ drop at s.now) result }
{
    if let Some(char) = short_at(s, at) {
        return Some(Group { char, len: 3 });
    }
    if byte_at(s, at + 3) != b'#' {
        return None;
    }
    let char = character_at(s, at)?;
    Some(Group { char, len: 5 })
}

// What stands at a place; none where that does not parse. Inline: with a call for each character, whose answer goes through memory, a text
// of letters cost twice as much to read back.
#[inline(always)]
fn group_at(s: &[u8], at: usize) -> Option<Group>
    requires { at < length s.now }
    ensures { Grouped (drop at s.now) result }
{
    let b = s[at];
    if is_plain(b) {
        return Some(Group { char: b, len: 1 });
    }
    match b {
        b'_' => Some(Group { char: b' ', len: 1 }),
        b'#' => behind_hash(s, at + 1),
        _ => None,
    }
}

// The answer for a text that does not parse, once what stands before the rest of it is known to have no byte over 127.
#[tactic(auto, unfolding(crate::specs::Answers::unparsed_answer))]
fn unparsed_answer(rest: &[u8]) -> Result<Option<usize>, RestrictedFault>
    ensures { result ≡ unparsed_answer rest.now }
{
    if all_chars(rest) {
        Ok(None)
    } else {
        Err(RestrictedFault::ByteOver127)
    }
}

// How many characters a text stands for; none where it does not parse, and is taken as it stands.
pub(crate) fn measure_parsed(s: &[u8]) -> Result<Option<usize>, RestrictedFault>
    ensures { Measured s.now result }
{
    let mut n = 0;
    let mut i = 0;
    // while: a group has 1, 3 or 5 bytes
    while i < s.len() {
        let Some(g) = group_at(s, i) else {
            return unparsed_answer(&s[i..]);
        };
        n += 1;
        i += g.len;
    }
    Ok(Some(n))
}

// Writes what a text that parses stands for to the front of `dst`, and returns its length.
pub(crate) fn put_parsed(dst: &mut [u8], s: &[u8]) -> usize
    requires s_value { parse s.now ≡ some (decoded s.now) }
    requires s_in_bounds { length (decoded s.now) ≤ length dst.old }
    ensures { Wrote dst.old 0 (decoded s.now) result dst.new }
{
    let mut n = 0;
    let mut i = 0;
    // while: a group has 1, 3 or 5 bytes
    while i < s.len() {
        let g = group_at(s, i).unwrap();
        dst[n] = g.char;
        n += 1;
        i += g.len;
    }
    n
}
