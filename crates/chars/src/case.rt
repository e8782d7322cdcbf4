// Letter case: folding a byte, and byte strings compared case aside and exactly.
ghost use Rattle.std.specs.Prelude.{◌≡◌};
ghost use Rattle.chars.specs.Case.{equal_text, fold_case, same_byte, same_text};

// The small letter of a capital one; any other byte as it is.
#[tactic(auto, using(std::proofs::lemmas::Bool::Decides::nat_tests), unfolding(crate::specs::Case::fold_case, crate::specs::Class::between))]
pub fn fold_case(b: u8) -> u8
    ensures { result ≡ fold_case b }
{
    b.to_ascii_lowercase()
}

#[tactic(auto, using(std::proofs::lemmas::Bool::Decides::nat_tests), unfolding(crate::specs::Case::same_byte))]
pub fn same_byte(a: u8, b: u8) -> bool
    ensures { result ≡ same_byte a b }
{
    a == b || fold_case(a) == fold_case(b)
}

// Whether the two are equal, letter case aside.
pub fn same_text(a: &[u8], b: &[u8]) -> bool
    ensures { result ≡ same_text a.now b.now }
{
    a.len() == b.len() && a.iter().zip(b).all(|(&x, &y)| same_byte(x, y))
}

// Whether the two are equal byte for byte.
pub fn equal_text(a: &[u8], b: &[u8]) -> bool
    ensures { result ≡ equal_text a.now b.now }
{
    a == b
}
