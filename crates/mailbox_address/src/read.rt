// An addr-spec from a token on, its texts written into a buffer: RFC 822, section 6.1.
// A token is places without its line: that it stands there is asked beside it.
// A buffer is lent with room for all of the text, which is asked: nothing is allocated, and whose room it is only the caller knows.
ghost use Rattle.std.specs.Prelude.{◌≡◌, false, ◌≤◌, length, take};
ghost use Rattle.chars.specs.Write.{Wrote};
ghost use Rattle.lexical.specs.Answers.{Stands, tokens_of};
ghost use Rattle.lexical.specs.Tokens.{tokens_at};
ghost use Rattle.mailbox_address.specs.Answers.{ReadsDotted, ReadsSpec, after, domain_text, is_allowed_kind, is_quoted_kind, is_special_kind, is_word_kind, meaning_at, spec_text};
ghost use Rattle.mailbox_address.specs.Grammar.{addr_spec, allowed, domain, dotted};

use chars::write::put;
use lexical::quoted::put_quoted;
use lexical::token::{Kind, Lexeme, next_token};

// Words joined by dots: the length of the buffer's front with their text, whether one is a quoted string, and the token behind them.
#[derive(Clone, Copy)]
pub struct DottedRead {
    pub size: usize,
    pub quoted: bool,
    pub next: Lexeme,
}

// An addr-spec: the length of the local part's text, that of both texts, whether the local part has a quoted string, and the token behind it.
#[derive(Clone, Copy)]
pub struct SpecRead {
    pub local: usize,
    pub size: usize,
    pub quoted: bool,
    pub next: Lexeme,
}

pub fn is_word(kind: Kind) -> bool
    ensures { result ≡ is_word_kind kind }
{
    matches!(kind, Kind::Atom | Kind::Quoted)
}

// Whether it is this special.
pub fn is_special(kind: Kind, b: u8) -> bool
    ensures { result ≡ is_special_kind kind b }
{
    matches!(kind, Kind::Special(c) if c == b)
}

fn is_quoted(kind: Kind) -> bool
    ensures { result ≡ is_quoted_kind kind }
{
    matches!(kind, Kind::Quoted)
}

// Whether it is an atom, or a quoted string where one may stand.
fn is_allowed(kind: Kind, quotable: bool) -> bool
    ensures { result ≡ is_allowed_kind kind quotable }
{
    match kind {
        Kind::Atom => true,
        Kind::Quoted => quotable,
        _ => false,
    }
}

// Writes a word's text, and returns where the next text goes.
fn put_word(dst: &mut [u8], at: usize, s: &[u8], t: Lexeme) -> usize
    requires stands { Stands s.now t }
    requires at_le_start { (at ≤ t.start) × (length s.now ≤ length dst.old) }
    ensures { Wrote dst.old at (meaning_at s.now t) result dst.new }
{
    match t.kind {
        Kind::Atom => put(dst, at, &s[t.start..t.end]),
        Kind::Quoted => put_quoted(dst, at, s, t.start + 1),
        _ => at,
    }
}

// Words joined by dots from a token on, their text written at `at`; where none stand, the token where reading stopped.
fn read_dotted(
    dst: &mut [u8],
    at: usize,
    s: &[u8],
    first: Lexeme,
    quotable: bool,
) -> Result<DottedRead, Lexeme>
    requires stands { Stands s.now first }
    requires at_le_start { (at ≤ first.start) × (length s.now ≤ length dst.old) }
    ensures { ReadsDotted s.now (after (take at dst.old) false (dotted (allowed quotable) (tokens_of s.now first))) result dst.new }
{
    let mut t = first;
    let mut size = at;
    let mut quoted = false;
    // loop: a token says where the next one starts
    loop {
        let kind = t.kind;
        if !is_allowed(kind, quotable) {
            return Err(t);
        }
        let end = put_word(dst, size, s, t);
        quoted |= is_quoted(kind);
        let next = next_token(s, t.end);
        if !is_special(next.kind, b'.') {
            return Ok(DottedRead {
                size: end,
                quoted,
                next,
            });
        }
        dst[end] = b'.';
        size = end + 1;
        t = next_token(s, next.end);
    }
}

// The domain behind a local part, the token behind that being its `@`; where none stands, the token where reading stopped.
fn read_domain(dst: &mut [u8], s: &[u8], l: DottedRead) -> Result<SpecRead, Lexeme>
    requires stands { Stands s.now l.next }
    requires size_le_start { (l.size ≤ l.next.start) × (length s.now ≤ length dst.old) }
    ensures { ReadsSpec s.now (domain_text (take l.size dst.old) l.quoted (domain (tokens_at s.now l.next.end))) result dst.new }
{
    let first = next_token(s, l.next.end);
    let d = read_dotted(dst, l.size, s, first, false)?;
    Ok(SpecRead {
        local: l.size,
        size: d.size,
        quoted: l.quoted,
        next: d.next,
    })
}

// An addr-spec from a token on: the text of its local part at the buffer's front, and the text of its domain behind that. Where none stands, the token
// where reading stopped.
pub fn addr_spec(dst: &mut [u8], s: &[u8], first: Lexeme) -> Result<SpecRead, Lexeme>
    requires stands { Stands s.now first }
    requires s_in_bounds { length s.now ≤ length dst.old }
    ensures { ReadsSpec s.now (spec_text (addr_spec (tokens_of s.now first))) result dst.new }
{
    let l = read_dotted(dst, 0, s, first, true)?;
    if !is_special(l.next.kind, b'@') {
        return Err(l.next);
    }
    read_domain(dst, s, l)
}
