// Three decimal digits, by which a character's number is written.
ghost use Rattle.std.specs.Prelude.{◌≡◌, ◌≤◌, IfSome, drop, unwrap_or};
ghost use Rattle.chars.specs.Digits.{digit_value, no_digits, spelt_character, three_digits};

use crate::class::HIGHEST_CODE;

// The highest number of a character, as three digits spell it.
pub const HIGHEST_NUMBER: u16 = HIGHEST_CODE as u16;

// The answer where no three digits stand: the number of no character.
pub const NO_DIGITS: u16 = 999;

// The value of a digit.
#[tactic(auto, using(std::proofs::lemmas::Bool::Decides::nat_tests), unfolding(crate::specs::Digits::digit_value, crate::specs::Class::is_digit, crate::specs::Class::between))]
fn digit_value(b: u8) -> Option<u16>
    ensures value { result ≡ digit_value b }
    ensures small { IfSome result (λ d. d ≤ 9) }
{
    match b {
        b'0'..=b'9' => Some((b - b'0') as u16),
        _ => None,
    }
}

// The number that three digits at a place spell: none where no three digits stand there.
fn digits_at(s: &[u8], at: usize) -> Option<u16>
    ensures { unwrap_or result no_digits ≡ three_digits (drop at s.now) }
{
    let [a, b, c, ..] = s.get(at..)? else {
        return None;
    };
    Some(digit_value(*a)? * 100 + digit_value(*b)? * 10 + digit_value(*c)?)
}

// The number that three digits at a place spell, and `NO_DIGITS` where no three digits stand there.
pub fn number_at(s: &[u8], at: usize) -> u16
    ensures { result ≡ three_digits (drop at s.now) }
{
    digits_at(s, at).unwrap_or(NO_DIGITS)
}

// The character whose number three digits at a place spell: none where no three digits stand there, or no character has their number.
#[tactic(auto, using(std::proofs::lemmas::Bool::Decides::nat_tests), unfolding(crate::specs::Digits::spelt_character))]
pub fn character_at(s: &[u8], at: usize) -> Option<u8>
    ensures { result ≡ spelt_character (drop at s.now) }
{
    let n = number_at(s, at);
    if n <= HIGHEST_NUMBER {
        Some(n as u8)
    } else {
        None
    }
}
