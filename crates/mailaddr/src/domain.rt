// Domains as their parts, from the right.
ghost use Rattle.std.specs.Prelude.{◌≡◌, reverse, ◌-◌, ◌≤◌, length, take};
ghost use Rattle.chars.specs.Parts.{run, split};
ghost use Rattle.mailaddr.specs.Domain.{is_domain};

use chars::parts::is_domain_part;

// Where the part that ends at `end` starts: behind the dot before it, or at the front.
pub fn part_start(s: &[u8], end: usize) -> usize
    requires { end ≤ length s.now }
    ensures { result ≡ end - run 46 (reverse (take end s.now)) }
{
    end - s[..end].iter().rev().take_while(|b| **b != b'.').count()
}

// How many parts a domain has.
pub fn count_parts(s: &[u8]) -> usize
    ensures { result ≡ length (split 46 s.now) }
{
    1 + s.iter().filter(|b| **b == b'.').count()
}

// Whether each part is a domain part.
pub fn is_domain(s: &[u8]) -> bool
    ensures { result ≡ is_domain s.now }
{
    s.split(|b| *b == b'.').all(is_domain_part)
}
