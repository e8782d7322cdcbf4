// Personal names: read from a text, and written in the short form.
ghost use Rattle.std.specs.Prelude.{◌≡◌, [], ◌++◌, ◌+◌, ◌*◌, ◌≤◌, drop, length};
ghost use Rattle.chars.specs.Lists.{first, member};
ghost use Rattle.chars.specs.Write.{Wrote};
ghost use Rattle.ortext_name.specs.Name.{dot_allowed, dotted, given_short, given_text, initials_of, is_short, name_text};
ghost use Rattle.ortext_name.specs.Places.{NameReading, given_end, letters_at, name_view};

use chars::class::{Class, all_in, is_letter};
use chars::parts::{byte_at, part_end};
use chars::write::put;

// Where the pieces of a name stand in its text: the given name in front, its length 0 where there is none; the initials,
// each with a dot, from `from` on; and the surname to the end.
#[derive(Clone, Copy)]
pub struct NamePlaces {
    pub given: usize,
    pub from: usize,
    pub initials: usize,
    pub surname: usize,
}

// How many initials stand at the front of `s`.
fn count_initials(s: &[u8]) -> usize
    ensures { result ≡ length (initials_of s.now) }
{
    let most = s.len() / 2;
    for n in 0..most {
        if !is_letter(s[2 * n]) || s[2 * n + 1] != b'.' {
            return n;
        }
    }
    most
}

// Where the initials start: after a given name of two characters or more and its dot, or at the front.
fn after_given(s: &[u8]) -> usize
    ensures { result ≡ given_end s.now }
{
    let dot = part_end(s, 0, b'.');
    if 2 <= dot && dot < s.len() {
        dot + 1
    } else {
        0
    }
}

// The pieces of the name that `s` is.
pub fn read_name(s: &[u8]) -> Option<NamePlaces>
    ensures { NameReading s.now result }
{
    let from = after_given(s);
    let initials = count_initials(&s[from..]);
    let surname = from + 2 * initials;
    if s.len() <= surname {
        return None;
    }
    Some(NamePlaces {
        given: from.saturating_sub(1),
        from,
        initials,
        surname,
    })
}

// Copies n initials, which stand each with a dot from a place on, to the front of `dst`.
pub fn put_initials(dst: &mut [u8], s: &[u8], from: usize, n: usize)
    requires places { from + 2 * n ≤ length s.now }
    requires room { n ≤ length dst.old }
    ensures { dst.new ≡ letters_at n (drop from s.now) ++ drop n dst.old }
{
    for i in 0..n {
        dst[i] = s[from + 2 * i];
    }
}

// Whether a dot stands in `s`.
fn has_dot(s: &[u8]) -> bool
    ensures { result ≡ member 46 s.now }
{
    part_end(s, 0, b'.') < s.len()
}

// Whether a given name may stand in the short form: absent, or two characters or more and no dot.
fn is_given_short(given: &[u8]) -> bool
    ensures { result ≡ given_short given.now }
{
    given.is_empty() || 2 <= given.len() && !has_dot(given)
}

// Writes each initial with a dot.
fn put_dotted(dst: &mut [u8], at: usize, initials: &[u8]) -> usize
    requires { at + 2 * length initials.now ≤ length dst.old }
    ensures { Wrote dst.old at (dotted initials.now) result dst.new }
{
    for (i, letter) in initials.iter().enumerate() {
        dst[at + 2 * i] = *letter;
        dst[at + 2 * i + 1] = b'.';
    }
    at + 2 * initials.len()
}

// Writes the given name and its dot, if there is one.
fn put_given(dst: &mut [u8], at: usize, given: &[u8]) -> usize
    requires { at + length (given_text given.now) ≤ length dst.old }
    ensures { Wrote dst.old at (given_text given.now) result dst.new }
{
    if given.is_empty() {
        return at;
    }
    let dot = put(dst, at, given);
    dst[dot] = b'.';
    dot + 1
}

// A personal name: what is absent is empty.
#[derive(Clone, Copy)]
pub struct Name<'a> {
    pub given: &'a [u8],
    pub initials: &'a [u8],
    pub surname: &'a [u8],
}

impl Name<'_> {
    // Whether the dots of the surname leave the short form readable: none, or none in its first two characters and a given name or
    // initials in front.
    fn is_dot_allowed(&self) -> bool
        ensures { result ≡ dot_allowed (name_view self.now) }
    {
        let dot = part_end(self.surname, 0, b'.');
        self.surname.len() <= dot
            || 2 <= dot && !(self.given.is_empty() && self.initials.is_empty())
    }

    // The first byte of the short form, or 0.
    fn first_byte(&self) -> u8
        ensures { result ≡ first (name_text (name_view self.now)) }
    {
        if !self.given.is_empty() {
            self.given[0]
        } else if !self.initials.is_empty() {
            self.initials[0]
        } else {
            byte_at(self.surname, 0)
        }
    }

    // Whether the name, with no generation, is written in the short form.
    pub fn is_short(&self) -> bool
        ensures { result ≡ is_short (name_view self.now) [] }
    {
        !self.surname.is_empty()
            && all_in(self.initials, Class::Letter)
            && is_given_short(self.given)
            && self.is_dot_allowed()
            && self.first_byte() != b'/'
    }

    // Writes the short form of the name.
    pub fn put(&self, dst: &mut [u8], at: usize) -> usize
        requires { at + length (name_text (name_view self.now)) ≤ length dst.old }
        ensures { Wrote dst.old at (name_text (name_view self.now)) result dst.new }
    {
        let a = put_given(dst, at, self.given);
        let b = put_dotted(dst, a, self.initials);
        put(dst, b, self.surname)
    }
}
