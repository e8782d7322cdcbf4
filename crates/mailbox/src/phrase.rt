// A line as a mailbox: an addr-spec, or a phrase and a route-addr. RFC 822, section 6.1.
// A token is places without its line: that it stands there is asked beside it.
// A buffer is lent with room for all of the text, which is asked: nothing is allocated, and whose room it is only the caller knows.
ghost use Rattle.std.specs.Prelude.{◌≡◌, ◌||◌, ◌≤◌, length};
ghost use Rattle.lexical.specs.Answers.{Stands, tokens_of};
ghost use Rattle.mailbox.specs.Answers.{ReadsMailbox, ReadsPhrase, named_by, whole_read};
ghost use Rattle.mailbox_address.specs.Answers.{is_end_kind, is_special_kind};
ghost use Rattle.mailbox_address.specs.Grammar.{addr_spec, phrase_from, whole};
ghost use Rattle.mailbox.specs.Mailbox.{bare_in, bare_of};

use lexical::token::{Kind, Lexeme, next_token};
use mailbox_address::read::{SpecRead, addr_spec, is_special, is_word};
use mailbox_address::route::route_addr;

// Where a phrase ends, and the token behind it: a phrase is one whatever follows, so there is no refusal here.
#[derive(Clone, Copy)]
pub struct PhraseRead {
    pub end: usize,
    pub next: Lexeme,
}

// Where a phrase stands in its line.
#[derive(Clone, Copy)]
pub struct PhrasePlace {
    pub start: usize,
    pub size: usize,
}

// A mailbox: the length of its local part's text, that of both texts, whether its local part has a quoted string, and where its phrase stands.
#[derive(Clone, Copy)]
pub struct MailboxRead {
    pub local: usize,
    pub size: usize,
    pub quoted: bool,
    pub phrase: PhrasePlace,
}

fn is_end(kind: Kind) -> bool
    ensures { result ≡ is_end_kind kind }
{
    matches!(kind, Kind::End)
}

// The mailbox of an address, which must be the last thing in the line, and of its phrase.
fn mailbox_of(a: SpecRead, start: usize, size: usize) -> Option<MailboxRead>
    ensures { result ≡ whole_read a start size }
{
    if !is_end(a.next.kind) {
        return None;
    }
    Some(MailboxRead {
        local: a.local,
        size: a.size,
        quoted: a.quoted,
        phrase: PhrasePlace { start, size },
    })
}

// A phrase that has a word up to `from`, the token behind that being known.
fn phrase_end(s: &[u8], from: usize, first: Lexeme) -> PhraseRead
    requires stands { Stands s.now first }
    requires from_le_start { from ≤ first.start }
    ensures { ReadsPhrase s.now from (phrase_from from (tokens_of s.now first)) result }
{
    let mut end = from;
    let mut t = first;
    // while: a word takes its own bytes, so nothing counts it
    while is_word(t.kind) {
        end = t.end;
        t = next_token(s, end);
    }
    PhraseRead { end, next: t }
}

// The mailbox of a phrase, whose first word and the token behind that are known, and a route-addr.
fn named(dst: &mut [u8], s: &[u8], word: Lexeme, second: Lexeme) -> Option<MailboxRead>
    requires stands { Stands s.now word }
    requires second_stands { Stands s.now second }
    requires end_le_start { (word.end ≤ second.start) × (length s.now ≤ length dst.old) }
    ensures { ReadsMailbox s.now (bare_of (named_by word.start (phrase_from word.end (tokens_of s.now second)))) result dst.new }
{
    let p = phrase_end(s, word.end, second);
    let a = route_addr(dst, s, p.next).ok()?;
    mailbox_of(a, word.start, p.end - word.start)
}

// The mailbox of an address alone.
fn bare(dst: &mut [u8], s: &[u8], word: Lexeme) -> Option<MailboxRead>
    requires stands { Stands s.now word }
    requires s_in_bounds { length s.now ≤ length dst.old }
    ensures { ReadsMailbox s.now (bare_of (whole 0 0 (addr_spec (tokens_of s.now word)))) result dst.new }
{
    let a = addr_spec(dst, s, word).ok()?;
    mailbox_of(a, 0, 0)
}

// Whether an addr-spec goes on with this behind its first word: a dot or `@`.
fn goes_on(kind: Kind) -> bool
    ensures { result ≡ (is_special_kind kind 46 || is_special_kind kind 64) }
{
    is_special(kind, b'.') || is_special(kind, b'@')
}

// A line as a mailbox: its local part's text at the buffer's front, and its domain's behind that.
pub(crate) fn mailbox(dst: &mut [u8], s: &[u8]) -> Option<MailboxRead>
    requires { length s.now ≤ length dst.old }
    ensures { ReadsMailbox s.now (bare_in s.now) result dst.new }
{
    let word = next_token(s, 0);
    if !is_word(word.kind) {
        return None;
    }
    let second = next_token(s, word.end);
    if goes_on(second.kind) {
        return bare(dst, s, word);
    }
    named(dst, s, word, second)
}
