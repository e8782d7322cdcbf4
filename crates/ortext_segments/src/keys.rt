// The keys of record text: one table, which the reader and the writer share.
ghost use Rattle.std.specs.Prelude.{◌≡◌, [], ◌∷◌, ◌<◌, get_or, length};
ghost use Rattle.ortext_segments.specs.Keys.{key_count, key_of, keys};

use chars::case::{fold_case, same_text};

// The numbers of the keys: those of the attributes in the table of bounds, and then these.
const C_KEY: usize = 0;

const ADMD_KEY: usize = 1;

const PRMD_KEY: usize = 2;

const O_KEY: usize = 3;

const CN_KEY: usize = 4;

const S_KEY: usize = 5;

const G_KEY: usize = 6;

const I_KEY: usize = 7;

const GQ_KEY: usize = 8;

pub const OU_KEY: usize = 9;

pub const DD_KEY: usize = 10;

pub const PN_KEY: usize = 11;

// From this number on the entries are short keys, each for the DD type that it spells.
pub const SHORT_KEYS: usize = 12;

// The number that a segment has whose key no entry spells, or is DD with no dot.
pub const UNKNOWN: usize = 12;

// The key with the number k. It is a match and no array: a constant array is built anew on the stack at each use.
#[tactic(auto, unfolding(crate::specs::Keys::keys, chars::specs::Lists::bytes))]
pub fn key_name(k: usize) -> &'static [u8]
    requires { k < key_count }
    ensures { result.now ≡ get_or keys k [] }
{
    match k {
        C_KEY => b"C",
        ADMD_KEY => b"ADMD",
        PRMD_KEY => b"PRMD",
        O_KEY => b"O",
        CN_KEY => b"CN",
        S_KEY => b"S",
        G_KEY => b"G",
        I_KEY => b"I",
        GQ_KEY => b"GQ",
        OU_KEY => b"OU",
        DD_KEY => b"DD",
        PN_KEY => b"PN",
        _ => b"RFC-822",
    }
}

// The number of the key of one letter, case aside, if there is one.
fn one_letter(x: u8) -> Option<usize>
    ensures { result ≡ key_of keys (x ∷ []) }
{
    match fold_case(x) {
        b'c' => Some(C_KEY),
        b'o' => Some(O_KEY),
        b's' => Some(S_KEY),
        b'g' => Some(G_KEY),
        b'i' => Some(I_KEY),
        _ => None,
    }
}

// The number of the key of two letters that `s` spells, if there is one.
fn two_letters(s: &[u8]) -> Option<usize>
    requires { length s.now ≡ 2 }
    ensures { result ≡ key_of keys s.now }
{
    if same_text(b"CN", s) {
        return Some(CN_KEY);
    }
    if same_text(b"GQ", s) {
        return Some(GQ_KEY);
    }
    if same_text(b"OU", s) {
        return Some(OU_KEY);
    }
    if same_text(b"DD", s) {
        return Some(DD_KEY);
    }
    if same_text(b"PN", s) {
        return Some(PN_KEY);
    }
    None
}

// The number of the key that `s` spells, which has neither one letter nor two, if there is one.
fn longer_key(s: &[u8]) -> Option<usize>
    requires { (length s.now ≡ 1 → ⊥) × (length s.now ≡ 2 → ⊥) }
    ensures { result ≡ key_of keys s.now }
{
    if same_text(b"ADMD", s) {
        return Some(ADMD_KEY);
    }
    if same_text(b"PRMD", s) {
        return Some(PRMD_KEY);
    }
    if same_text(b"RFC-822", s) {
        return Some(SHORT_KEYS);
    }
    None
}

// The number of the key that `s` spells, case aside, if there is one. Its length is asked first: most keys have one letter or two.
pub fn key_number(s: &[u8]) -> Option<usize>
    ensures { result ≡ key_of keys s.now }
{
    if s.len() == 1 {
        return one_letter(s[0]);
    }
    if s.len() == 2 {
        return two_letters(s);
    }
    longer_key(s)
}
