// Comments: RFC 822, section 3.3. "A comment holds text and comments, nested at most eight deep": the reader of a comment calls the reader of its
// content, and that one the first for each comment inside, the levels that are allowed falling.
// A bound on a place is asked where it is used: it ties two parameters of one call, and a struct of the two would be made for each.
ghost use Rattle.std.specs.Prelude.{◌≡◌, ◌+◌, ◌<◌, drop, get_or, length};
ghost use Rattle.mailaddr.specs.Shape.{more};
ghost use Rattle.lexical.specs.Comment.{comment as comment_of, content as content_of, content_step as content_step_of, is_ctext, pair_step};

use crate::space::is_fold;
use chars::parts::byte_at;

// The most levels.
pub const DEEPEST_COMMENT: usize = 8;

// What stands at a place of a comment's content: its end, a comment, a backslash with its byte, a fold, a byte of text, or none of these.
#[derive(Clone, Copy)]
pub enum ContentStep {
    Close,
    Open,
    Pair,
    Fold,
    Text,
    Break,
}

// A byte of text: 0 to 127 without the parentheses, the backslash and CR.
#[tactic(auto, using(std::proofs::lemmas::Bool::Decides::nat_tests), unfolding(crate::specs::Comment::is_ctext, chars::specs::Lists::bytes, chars::specs::Lists::member))]
fn is_ctext(b: u8) -> bool
    ensures { result ≡ is_ctext b }
{
    b <= 127 && !matches!(b, b'(' | b')' | b'\\' | b'\r')
}

#[tactic(auto, using(std::proofs::lemmas::Bool::Decides::nat_tests), unfolding(crate::specs::Comment::pair_step))]
fn pair_step(s: &[u8], i: usize) -> ContentStep
    requires { i < length s.now }
    ensures { result ≡ pair_step (get_or s.now (i + 1) 0) }
{
    if byte_at(s, i + 1) <= 127 {
        ContentStep::Pair
    } else {
        ContentStep::Break
    }
}

#[tactic(auto, using(std::proofs::lemmas::Bool::Decides::nat_tests), unfolding(crate::specs::Comment::content_step))]
fn content_step(s: &[u8], i: usize) -> ContentStep
    requires { i < length s.now }
    ensures { result ≡ content_step_of (get_or s.now i 0) (get_or s.now (i + 1) 0) (get_or s.now (i + 2) 0) }
{
    match s[i] {
        b')' => ContentStep::Close,
        b'(' => ContentStep::Open,
        b'\\' => pair_step(s, i),
        _ if is_fold(s, i) => ContentStep::Fold,
        b if is_ctext(b) => ContentStep::Text,
        _ => ContentStep::Break,
    }
}

// The end of the comment at `i`, of at most so many levels.
#[cycle(comment_content)]
pub(crate) fn comment(s: &[u8], i: usize, levels: usize) -> Option<usize>
    requires { i < length s.now }
    ensures { result ≡ more i (comment_of levels (drop i s.now)) }
{
    if levels == 0 {
        return None;
    }
    if s[i] != b'(' {
        return None;
    }
    content(s, i + 1, levels - 1)
}

// The end of a comment whose content goes on at `from`, in which so many levels may open.
#[cycle(comment_content)]
fn content(s: &[u8], from: usize, levels: usize) -> Option<usize>
    ensures { result ≡ more from (content_of 0 levels 0 (drop from s.now)) }
{
    let mut i = from;
    // while: a pair and a fold take two bytes and a comment its own, so nothing counts it
    while i < s.len() {
        match content_step(s, i) {
            ContentStep::Close => return Some(i + 1),
            ContentStep::Open => i = comment(s, i, levels)?,
            ContentStep::Pair => i += 2,
            ContentStep::Fold => i += 2,
            ContentStep::Text => i += 1,
            ContentStep::Break => return None,
        }
    }
    None
}
