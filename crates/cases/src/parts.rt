// Parts of a text, each kept within it.
ghost use Rattle.std.specs.Prelude.{◌≡◌, drop, take};
ghost use Rattle.cases.specs.Lines.{first_field, second_field};

use chars::parts::part_end;

// The first n bytes of a text, or all of it.
pub fn front(s: &[u8], n: usize) -> &[u8]
    ensures { result.now ≡ take n s.now }
{
    &s[..n.min(s.len())]
}

// What stands from a place on.
pub fn rest(s: &[u8], at: usize) -> &[u8]
    ensures { result.now ≡ drop at s.now }
{
    &s[at.min(s.len())..]
}

// The field in front of the first tab, or all of it.
pub fn first_field(s: &[u8]) -> &[u8]
    ensures { result.now ≡ first_field s.now }
{
    front(s, part_end(s, 0, b'\t'))
}

// What stands behind the first tab.
pub fn second_field(s: &[u8]) -> &[u8]
    ensures { result.now ≡ second_field s.now }
{
    rest(s, part_end(s, 0, b'\t') + 1)
}
