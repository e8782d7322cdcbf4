// The next token of a line, behind white space and comments.
// A bound on a place is asked where it is used: it ties two parameters of one call, and a struct of the two would be made for each.
ghost use Rattle.std.specs.Prelude.{◌≡◌, ◌≤◌, ◌<◌, drop, length};
ghost use Rattle.mailaddr.specs.Answers.{unless_zero};
ghost use Rattle.mailaddr.specs.Shape.{more};
ghost use Rattle.lexical.specs.Answers.{Behind, Lexed, lexeme};
ghost use Rattle.lexical.specs.Tokens.{atom_run, gap, is_mailbox_special};

use crate::comment::{DEEPEST_COMMENT, comment};
use crate::quoted::quoted_end;
use crate::space::{is_fold, is_space};
use chars::class::is_atom_char;

// What a token is: an atom, a quoted string, a special, the line's end, or no token. The last two are kinds, and no Option beside the others, since
// a reader asks of each token, these too, only whether it is of the kind that may stand there.
#[derive(Clone, Copy)]
pub enum Kind {
    Atom,
    Quoted,
    Special(u8),
    End,
    Bad,
}

// A token and where it stands, from its first byte to behind its last.
#[derive(Clone, Copy)]
pub struct Lexeme {
    pub kind: Kind,
    pub start: usize,
    pub end: usize,
}

impl Lexeme {
    fn new(kind: Kind, start: usize, end: usize) -> Lexeme
        ensures { result ≡ lexeme kind start end }
    {
        Lexeme { kind, start, end }
    }
}

#[tactic(auto, using(std::proofs::lemmas::Bool::Decides::nat_tests), unfolding(crate::specs::Tokens::is_mailbox_special, chars::specs::Lists::bytes, chars::specs::Lists::member))]
fn is_mailbox_special(b: u8) -> bool
    ensures { result ≡ is_mailbox_special b }
{
    matches!(b, b'.' | b'@' | b'<' | b'>' | b',' | b':')
}

// Where the white space or the comment at `i` ends.
fn gap_end(s: &[u8], i: usize) -> Option<usize>
    requires { i < length s.now }
    ensures { result ≡ more i (unless_zero (gap (drop i s.now))) }
{
    if is_space(s[i]) {
        return Some(i + 1);
    }
    if is_fold(s, i) {
        return Some(i + 2);
    }
    comment(s, i, DEEPEST_COMMENT)
}

// Where the first byte stands that is neither white space nor in a comment.
fn skip_gaps(s: &[u8], from: usize) -> usize
    requires { from ≤ length s.now }
    ensures { Behind s.now from result }
{
    let mut i = from;
    // while: a comment takes its own bytes, so nothing counts it
    while i < s.len() {
        let Some(end) = gap_end(s, i) else {
            return i;
        };
        i = end;
    }
    i
}

// How many atom characters stand at the front.
fn atom_run(s: &[u8]) -> usize
    ensures { result ≡ atom_run s.now }
{
    s.iter().take_while(|b| is_atom_char(**b)).count()
}

// The token at `i`, where neither white space nor a comment stands.
fn lex_at(s: &[u8], i: usize) -> Lexeme
    requires i_in_bounds { i ≤ length s.now }
    requires s_value { gap (drop i s.now) ≡ 0 }
    ensures { Lexed s.now i result }
{
    if s.len() <= i {
        return Lexeme::new(Kind::End, i, i);
    }
    match s[i] {
        b if is_atom_char(b) => Lexeme::new(Kind::Atom, i, i + 1 + atom_run(&s[i + 1..])),
        b if is_mailbox_special(b) => Lexeme::new(Kind::Special(b), i, i + 1),
        b'"' => match quoted_end(s, i + 1) {
            Some(end) => Lexeme::new(Kind::Quoted, i, end),
            None => Lexeme::new(Kind::Bad, i, i),
        },
        _ => Lexeme::new(Kind::Bad, i, i),
    }
}

// The first token from `i` on.
pub fn next_token(s: &[u8], i: usize) -> Lexeme
    requires { i ≤ length s.now }
    ensures { Lexed s.now i result }
{
    lex_at(s, skip_gaps(s, i))
}
