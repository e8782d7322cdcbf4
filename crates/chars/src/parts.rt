// Texts as parts between separators, and the rules on whole texts that are said by parts: atoms joined by dots, the
// spaces rule, domain parts.
ghost use Rattle.std.specs.Prelude.{◌≡◌, ◌+◌, drop, get_or};
ghost use Rattle.chars.specs.Class.{is_in};
ghost use Rattle.chars.specs.Domain.{is_domain_part};
ghost use Rattle.chars.specs.Parts.{is_atoms, is_parted, run};
ghost use Rattle.chars.specs.Spaces.{is_text, well_spaced};

use crate::class::{Class, all_in, is_in};

// The byte at a place, 0 past the end. A 0 may stand in a text too, so a caller asks only for bytes that are not 0.
pub fn byte_at(s: &[u8], i: usize) -> u8
    ensures { result ≡ get_or s.now i 0 }
{
    s.get(i).copied().unwrap_or(0)
}

// Where the part that starts at `from` ends: at the next separator, or at the end of the text.
pub fn part_end(s: &[u8], from: usize, sep: u8) -> usize
    ensures { result ≡ from + run sep (drop from s.now) }
{
    let rest = &s[from.min(s.len())..];
    from + rest.iter().position(|&b| b == sep).unwrap_or(rest.len())
}

// Whether `s` is parts of the class, none empty, joined by single separators. (The loop returns at the first byte that decides.)
pub fn is_parted(s: &[u8], sep: u8, class: Class) -> bool
    ensures { result ≡ is_parted sep (is_in class) s.now }
{
    // `open`: nothing of the present part has come yet
    let mut open = true;
    for &b in s {
        if b == sep {
            if open {
                return false;
            }
        } else if !is_in(class, b) {
            return false;
        }
        open = b == sep;
    }
    !open
}

// Whether `s` is RFC 822 atoms joined by single dots.
pub fn is_atoms(s: &[u8]) -> bool
    ensures { result ≡ is_atoms s.now }
{
    is_parted(s, b'.', Class::Atom)
}

// Whether `s` has no leading, trailing or adjacent space.
#[tactic(auto, using(std::proofs::lemmas::Bool::Decides::nat_tests, crate::proofs::Laws::Spaces::empty_spaced, crate::proofs::Laws::Spaces::some_spaced), unfolding(crate::specs::Class::is_in))]
pub fn well_spaced(s: &[u8]) -> bool
    ensures { result ≡ well_spaced s.now }
{
    s.is_empty() || is_parted(s, b' ', Class::Any)
}

// Whether `s` is not empty, of printable string characters, and well spaced: one pass for all three.
pub fn is_text(s: &[u8]) -> bool
    ensures { result ≡ is_text s.now }
{
    is_parted(s, b' ', Class::Printable)
}

// The most bytes that a domain part has.
pub const LONGEST_PART: usize = 63;

// Whether `s` is a domain part: 1 to 63 letters, digits and inner hyphens.
#[tactic(auto, using(std::proofs::lemmas::Bool::Decides::nat_tests, crate::proofs::Laws::Domain::domain_tests), unfolding(crate::specs::Class::is_in))]
pub fn is_domain_part(s: &[u8]) -> bool
    ensures { result ≡ is_domain_part s.now }
{
    let n = s.len();
    0 < n && n <= LONGEST_PART && s[0] != b'-' && s[n - 1] != b'-' && all_in(s, Class::Label)
}
