// A whole address coded as the value of a DD, and decoded again.
// A bound on a place is asked where it is used: it ties two parameters of one call, and a struct of the two would be made for each.
// A buffer is lent with room for all of the text, which is asked: nothing is allocated, and whose room it is only the caller knows.
ghost use Rattle.std.specs.Prelude.{◌≡◌, ◌*◌, ◌≤◌, ◌<◌, ◌&&◌, not, eqb, length, take, drop};
ghost use Rattle.chars.specs.Class.{is_printable};
ghost use Rattle.chars.specs.Write.{Wrote, front};
ghost use Rattle.mailaddr.specs.Answers.{Decoding, Grouped, letter_group, unless_zero};
ghost use Rattle.mailaddr.specs.Code.{char_of, coded, coded_char, letter_of, longest_coded_char, too_long_to_code};

use chars::case::fold_case;
use chars::class::is_printable;
use chars::digits::character_at;
use chars::parts::byte_at;

// The letter of a character that is coded by one.
#[tactic(auto, using(std::proofs::lemmas::Bool::Decides::nat_tests), unfolding(crate::specs::Code::letter_of, crate::specs::Code::index_of, chars::specs::Lists::bytes))]
fn letter_of(b: u8) -> Option<u8>
    ensures { result ≡ unless_zero (letter_of b) }
{
    let letter = match b {
        b'@' => b'a',
        b'%' => b'p',
        b'!' => b'b',
        b'"' => b'q',
        b'_' => b'u',
        b'(' => b'l',
        b')' => b'r',
        _ => return None,
    };
    Some(letter)
}

// The character that a letter stands for.
#[tactic(auto, using(std::proofs::lemmas::Bool::Decides::nat_tests), unfolding(crate::specs::Code::char_of, crate::specs::Code::index_of, chars::specs::Lists::bytes))]
fn char_of(letter: u8) -> Option<u8>
    ensures { result ≡ unless_zero (char_of letter) }
{
    let l = fold_case(letter);
    let char = match l {
        b'a' => b'@',
        b'p' => b'%',
        b'b' => b'!',
        b'q' => b'"',
        b'u' => b'_',
        b'l' => b'(',
        b'r' => b')',
        _ => return None,
    };
    Some(char)
}

// Writes as much of a text as there is room for, and returns where the next would go, room or none;
// `at` is at most what a text of `too_long_to_code` characters takes.
fn put_some(dst: &mut [u8], at: usize, text: &[u8]) -> usize
    requires text_bound { length text.now ≤ longest_coded_char }
    requires at_bound { at ≤ longest_coded_char * too_long_to_code }
    ensures { Wrote dst.old at text.now result dst.new }
{
    for (i, b) in text.iter().enumerate() {
        if at + i < dst.len() {
            dst[at + i] = *b;
        }
    }
    at + text.len()
}

// Whether a character that no letter codes is coded as itself: not the second and later of a run of spaces.
fn is_itself(spaced: bool, b: u8) -> bool
    ensures { result ≡ (is_printable b && not (spaced && eqb b 32)) }
{
    is_printable(b) && !(spaced && b == b' ')
}

// Writes a character, before which a space stands or not, while there is room: by its letter, as itself, or by its number.
fn put_char(dst: &mut [u8], at: usize, spaced: bool, b: u8) -> usize
    requires { at ≤ longest_coded_char * too_long_to_code }
    ensures { Wrote dst.old at (coded_char spaced b) result dst.new }
{
    if let Some(letter) = letter_of(b) {
        return put_some(dst, at, &[b'(', letter, b')']);
    }
    if is_itself(spaced, b) {
        return put_some(dst, at, &[b]);
    }
    put_some(
        dst,
        at,
        &[
            b'(',
            b'0' + b / 100,
            b'0' + b / 10 % 10,
            b'0' + b % 10,
            b')',
        ],
    )
}

// Writes the coded form of a text to the front of `dst` while there is room, and returns its whole length.
pub fn put_coded(dst: &mut [u8], s: &[u8]) -> usize
    requires { length s.now < too_long_to_code }
    ensures value { result ≡ length (coded s.now) }
    ensures dst_after { dst.new ≡ front (take (length dst.old) (coded s.now)) dst.old }
{
    let mut at = 0;
    let mut spaced = false;
    for &b in s {
        at = put_char(dst, at, spaced, b);
        spaced = b == b' ';
    }
    at
}

// What a group in parentheses, or another character, stands for, and how many bytes it takes.
#[derive(Clone, Copy)]
struct Group {
    char: u8,
    len: usize,
}

// The character of a letter and a closing parenthesis at a place.
fn letter_at(s: &[u8], at: usize) -> Option<u8>
    requires { at ≤ length s.now }
    ensures { result ≡ unless_zero (letter_group (drop at s.now)) }
{
    if byte_at(s, at + 1) != b')' {
        return None;
    }
    char_of(byte_at(s, at))
}

// The group at a place; none where a parenthesis stands outside a group.
fn group_at(s: &[u8], at: usize) -> Option<Group>
    requires { at < length s.now }
    ensures { Grouped (drop at s.now) result }
{
    let b = s[at];
    if b == b')' {
        return None;
    }
    if b != b'(' {
        return Some(Group { char: b, len: 1 });
    }
    if let Some(char) = letter_at(s, at + 1) {
        return Some(Group { char, len: 3 });
    }
    if byte_at(s, at + 4) != b')' {
        return None;
    }
    let char = character_at(s, at + 1)?;
    Some(Group { char, len: 5 })
}

// Writes the decoded text to the front of `dst`, and returns its length; none where the value does not decode.
pub fn decode(dst: &mut [u8], s: &[u8]) -> Option<usize>
    requires { length s.now ≤ length dst.old }
    ensures { Decoding s.now dst.old result dst.new }
{
    let mut n = 0;
    let mut i = 0;
    // while: a group takes one, three or five bytes, so nothing counts it
    while i < s.len() {
        let group = group_at(s, i)?;
        dst[n] = group.char;
        n += 1;
        i += group.len;
    }
    Some(n)
}
