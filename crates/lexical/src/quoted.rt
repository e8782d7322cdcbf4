// Quoted strings: RFC 822, section 3.3.
// A bound on a place is asked where it is used: it ties two parameters of one call, and a struct of the two would be made for each.
// What is written goes to a place of a lent buffer, and where the next goes is told: `dst, at`, as in `put` of chars/src/write.rt.
ghost use Rattle.std.specs.Prelude.{◌≡◌, false, ◌+◌, ◌≤◌, ◌<◌, drop, get_or, length};
ghost use Rattle.chars.specs.Write.{Wrote};
ghost use Rattle.lexical.specs.Answers.{quoted_end};
ghost use Rattle.lexical.specs.Quoted.{meaning_in, quoted, quoted_step as quoted_step_of, size_in, text_step};

use crate::space::is_fold;
use mailaddr::shape::is_quoted_byte;

// What stands at a place of a quoted string: a fold, its end, a backslash, a byte of its text, or none of these.
#[derive(Clone, Copy)]
pub enum QuotedStep {
    Fold,
    Close,
    Escape,
    Keep,
    Break,
}

#[tactic(auto, using(std::proofs::lemmas::Bool::Decides::nat_tests), unfolding(crate::specs::Quoted::text_step))]
fn text_step(b: u8) -> QuotedStep
    ensures { result ≡ text_step b }
{
    if is_quoted_byte(b) {
        QuotedStep::Keep
    } else {
        QuotedStep::Break
    }
}

#[tactic(auto, using(std::proofs::lemmas::Bool::Decides::nat_tests), unfolding(crate::specs::Quoted::quoted_step))]
fn quoted_step(s: &[u8], i: usize, escaped: bool) -> QuotedStep
    requires { i < length s.now }
    ensures { result ≡ quoted_step_of escaped (get_or s.now i 0) (get_or s.now (i + 1) 0) (get_or s.now (i + 2) 0) }
{
    if is_fold(s, i) {
        return QuotedStep::Fold;
    }
    match s[i] {
        b'"' if !escaped => QuotedStep::Close,
        b'\\' if !escaped => QuotedStep::Escape,
        b => text_step(b),
    }
}

// Where a quoted string that opened before `from` ends: behind its closing quote.
pub(crate) fn quoted_end(s: &[u8], from: usize) -> Option<usize>
    ensures { result ≡ quoted_end from (quoted 0 false (drop from s.now)) }
{
    let mut escaped = false;
    let mut i = from;
    // while: a fold takes two bytes, so nothing counts it
    while i < s.len() {
        match quoted_step(s, i, escaped) {
            QuotedStep::Fold => i += 2,
            QuotedStep::Close => return Some(i + 1),
            QuotedStep::Escape => {
                escaped = true;
                i += 1;
            }
            QuotedStep::Keep => {
                escaped = false;
                i += 1;
            }
            QuotedStep::Break => return None,
        }
    }
    None
}

// Writes the text of a quoted string that opened before `from` and closes, and returns where the next text goes.
pub fn put_quoted(dst: &mut [u8], at: usize, s: &[u8], from: usize) -> usize
    requires nonzero { 0 < size_in (quoted 0 false (drop from s.now)) }
    requires s_in_bounds { at + length (meaning_in (quoted 0 false (drop from s.now))) ≤ length dst.old }
    ensures { Wrote dst.old at (meaning_in (quoted 0 false (drop from s.now))) result dst.new }
{
    let mut next = at;
    let mut escaped = false;
    let mut i = from;
    // while: a fold takes two bytes, so nothing counts it
    while i < s.len() {
        match quoted_step(s, i, escaped) {
            QuotedStep::Fold => i += 2,
            QuotedStep::Close => return next,
            QuotedStep::Escape => {
                escaped = true;
                i += 1;
            }
            QuotedStep::Keep => {
                dst[next] = s[i];
                next += 1;
                escaped = false;
                i += 1;
            }
            QuotedStep::Break => return next,
        }
    }
    next
}
