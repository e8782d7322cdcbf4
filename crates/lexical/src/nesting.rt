// How deep the comments of a line nest, counted over the raw line: request 2's refusal 9.
ghost use Rattle.std.specs.Prelude.{◌≡◌, ◌-◌, ◌≤◌, ◌<◌};
ghost use Rattle.lexical.specs.Nesting.{nest, nest_behind, nest_comment, nest_outside, nest_quoted, nests_too_deep};
ghost use Rattle.lexical.specs.Comment.{deepest_comment};

use crate::comment::DEEPEST_COMMENT;

// What a byte leads to: in a quoted string or not, how many comments are open, and how many bytes behind it are taken.
#[derive(Clone, Copy)]
pub struct Nest {
    pub quote: bool,
    pub depth: usize,
    pub skip: usize,
}

impl Nest {
    fn new(quote: bool, depth: usize, skip: usize) -> Nest
        ensures { result ≡ nest quote depth skip }
    {
        Nest { quote, depth, skip }
    }
}

// A byte in a quoted string: a backslash takes the next, and a quote closes it.
#[tactic(auto, using(std::proofs::lemmas::Bool::Decides::nat_tests), unfolding(crate::specs::Nesting::nest_quoted))]
fn nest_quoted(b: u8, depth: usize) -> Nest
    ensures { result ≡ nest_quoted b depth }
{
    if b == b'\\' {
        Nest::new(true, depth, 1)
    } else {
        Nest::new(b != b'"', depth, 0)
    }
}

// A byte outside comments: a parenthesis opens one, and a quote a quoted string.
#[tactic(auto, using(std::proofs::lemmas::Bool::Decides::nat_tests), unfolding(crate::specs::Nesting::nest_outside))]
fn nest_outside(b: u8) -> Nest
    ensures { result ≡ nest_outside b }
{
    if b == b'(' {
        Nest::new(false, 1, 0)
    } else {
        Nest::new(b == b'"', 0, 0)
    }
}

// A byte in a comment: a backslash takes the next, and parentheses open and close.
#[tactic(auto, using(std::proofs::lemmas::Bool::Decides::nat_tests), unfolding(crate::specs::Nesting::nest_comment))]
fn nest_comment(b: u8, depth: usize) -> Nest
    requires { (0 < depth) × (depth ≤ deepest_comment) }
    ensures { result ≡ nest_comment b (depth - 1) }
{
    match b {
        b'\\' => Nest::new(false, depth, 1),
        b'(' => Nest::new(false, depth + 1, 0),
        b')' => Nest::new(false, depth - 1, 0),
        _ => Nest::new(false, depth, 0),
    }
}

// A byte behind which the text goes on: one that is taken leads nowhere.
#[tactic(auto, using(std::proofs::lemmas::Bool::Decides::nat_tests), unfolding(crate::specs::Nesting::nest_behind, crate::specs::Nesting::nest_of))]
fn nest_behind(b: u8, before: Nest) -> Nest
    requires { before.depth ≤ deepest_comment }
    ensures { result ≡ nest_behind b before }
{
    if 0 < before.skip {
        return Nest::new(before.quote, before.depth, before.skip - 1);
    }
    if before.quote {
        return nest_quoted(b, before.depth);
    }
    if before.depth == 0 {
        return nest_outside(b);
    }
    nest_comment(b, before.depth)
}

// Whether comments nest past eight anywhere in the line.
pub fn nests_too_deep(s: &[u8]) -> bool
    ensures { result ≡ nests_too_deep s.now }
{
    let mut n = Nest::new(false, 0, 0);
    for &b in s {
        n = nest_behind(b, n);
        if DEEPEST_COMMENT < n.depth {
            return true;
        }
    }
    false
}
