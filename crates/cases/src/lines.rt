// The lines of a text: one after the other (`for line in lines_of(s)`), or by their places.
// A bound on a place is asked where it is used: it ties two parameters of one call, and a struct of the two would be made for each.
ghost use Rattle.std.specs.Prelude.{◌≡◌, ◌≤◌, length};
ghost use Rattle.std.specs.Iterator.{YieldsFirstRef, item_count};
ghost use Rattle.cases.specs.Lines.{LineEnd, NextLine, line_at, lines};

use crate::parts::rest;
use chars::parts::part_end;

// The lines that are still to come: what is left of the text.
#[derive(Drop)]
pub struct Lines<'a> {
    left: &'a [u8],
}

// The lines of a text, each without its LF. The last one may lack it, and behind an LF at the end of the text there is no further line.
pub fn lines_of(s: &[u8]) -> Lines<'_>
    ensures { result.left.now ≡ s.now }
{
    Lines { left: s }
}

impl<'a> Iterator for Lines<'a> {
    type Item = &'a [u8];

    ghost next_gives = { YieldsFirstRef (λ s. lines s.left.now) };

    ghost remaining = { item_count (λ s. lines s.left.now) };

    fn next(&mut self) -> Option<&'a [u8]> {
        if self.left.is_empty() {
            return None;
        }
        let s = self.left;
        let end = line_end(s, 0);
        self.left = rest(s, end + 1);
        Some(&s[..end])
    }
}

// Where the line that starts at a place ends.
fn line_end(s: &[u8], from: usize) -> usize
    requires { from ≤ length s.now }
    ensures { LineEnd s.now from result }
{
    part_end(s, from, b'\n')
}

// The line that starts at a place.
pub fn line(s: &[u8], from: usize) -> &[u8]
    requires { from ≤ length s.now }
    ensures { result.now ≡ line_at from s.now }
{
    let end = line_end(s, from);
    &s[from..end]
}

// Where the line behind it starts: past the text where there is none.
pub fn next_line(s: &[u8], from: usize) -> usize
    requires { from ≤ length s.now }
    ensures { NextLine s.now from result }
{
    line_end(s, from) + 1
}
