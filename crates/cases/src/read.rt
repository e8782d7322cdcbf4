// What a line spells: numbers in decimal and bytes in hexadecimal.
ghost use Rattle.std.specs.Prelude.{◌≡◌, ◌+◌, ◌<◌, get_or, length};
ghost use Rattle.cases.specs.Read.{FourDigits, Unhexed, ValueOf, decimals, hex_byte, hexadecimals};

use chars::parts::byte_at;

// The largest number of four digits.
pub const LARGEST: usize = 9999;

// The value of a decimal digit; 0 for what is none.
#[tactic(auto, using(std::proofs::lemmas::Bool::Decides::nat_tests), unfolding(crate::specs::Read::decimals, crate::specs::Read::value_in, chars::specs::Lists::member, chars::specs::Lists::bytes, chars::specs::Parts::run))]
fn digit(b: u8) -> usize
    ensures { ValueOf decimals 9 b result }
{
    match b {
        b'0'..=b'9' => (b - b'0') as usize,
        _ => 0,
    }
}

// The number of the four digits at the front of a text.
pub fn number(s: &[u8]) -> usize
    ensures { FourDigits s.now result }
{
    let a = digit(byte_at(s, 0));
    let b = digit(byte_at(s, 1));
    let c = digit(byte_at(s, 2));
    let d = digit(byte_at(s, 3));
    a * 1000 + b * 100 + c * 10 + d
}

// The value of a hexadecimal digit in small letters; 0 for what is none.
#[tactic(auto, using(std::proofs::lemmas::Bool::Decides::nat_tests), unfolding(crate::specs::Read::hexadecimals, crate::specs::Read::value_in, chars::specs::Lists::member, chars::specs::Lists::bytes, chars::specs::Parts::run))]
fn nibble(b: u8) -> u8
    ensures { ValueOf hexadecimals 15 b result }
{
    match b {
        b'0'..=b'9' => b - b'0',
        b'a'..=b'f' => b - b'a' + 10,
        _ => 0,
    }
}

// The byte that the two digits at a place spell.
fn spelt(s: &[u8], at: usize) -> u8
    requires { at + 1 < length s.now }
    ensures { result ≡ hex_byte (get_or s.now at 0) (get_or s.now (at + 1) 0) }
{
    nibble(s[at]) * 16 + nibble(s[at + 1])
}

// Writes the bytes that a text spells to the front of a buffer, as many as there is room for; returns how many.
pub fn unhex(dst: &mut [u8], s: &[u8]) -> usize
    ensures { Unhexed dst.old s.now result dst.new }
{
    let size = dst.len().min(s.len() / 2);
    for n in 0..size {
        dst[n] = spelt(s, 2 * n);
    }
    size
}
