// White space and folds: RFC 822, section 3.3.
// A bound on a place is asked where it is used: it ties two parameters of one call, and a struct of the two would be made for each.
ghost use Rattle.std.specs.Prelude.{◌≡◌, ◌+◌, ◌<◌, get_or, length};
ghost use Rattle.lexical.specs.Space.{is_fold, is_space};

use chars::parts::byte_at;

// A space or a tab.
#[tactic(auto, using(std::proofs::lemmas::Bool::Decides::nat_tests), unfolding(crate::specs::Space::is_space))]
pub(crate) fn is_space(b: u8) -> bool
    ensures { result ≡ is_space b }
{
    b == b' ' || b == b'\t'
}

// Whether a fold stands at `i`: CR LF directly followed by a space or a tab.
#[tactic(auto, using(std::proofs::lemmas::Bool::Decides::nat_tests), unfolding(crate::specs::Space::is_fold, crate::specs::Space::is_space))]
pub(crate) fn is_fold(s: &[u8], i: usize) -> bool
    requires { i < length s.now }
    ensures { result ≡ is_fold (get_or s.now i 0) (get_or s.now (i + 1) 0) (get_or s.now (i + 2) 0) }
{
    s[i] == b'\r' && byte_at(s, i + 1) == b'\n' && is_space(byte_at(s, i + 2))
}
