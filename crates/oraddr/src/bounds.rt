// The one table of attribute bounds, the attributes' numbers in it, and each attribute's own rule.
// An attribute's number is bounded where it is used: it indexes the one table of bounds, and loops count over it.
ghost use Rattle.std.specs.Prelude.{◌≡◌, ◌<◌};
ghost use Rattle.oraddr.specs.Bounds.{bound_of, entries, is_country, is_space, is_value, rule};

use chars::case::equal_text;
use chars::class::{Class, all_in};
use chars::parts::is_text;

// The entries of the table, by numbers: the table is indexed by them, and `single_of`, `rule` and `levels` speak of them. The first SINGLES are the attributes that a record has once: the levels among them, the common name, the personal name.
pub const C: usize = 0;

pub const ADMD: usize = 1;

pub const PRMD: usize = 2;

pub const O: usize = 3;

pub const CN: usize = 4;

pub const S: usize = 5;

pub const G: usize = 6;

pub const I: usize = 7;

pub const GQ: usize = 8;

pub const OU: usize = 9;

pub const DD_TYPE: usize = 10;

pub const DD_VALUE: usize = 11;

pub const C_LETTERS: usize = 12;

// How many attributes a record has once.
pub const SINGLES: usize = 9;

// How many entries the table has.
pub const ENTRIES: usize = 13;

// How many levels there are: C, ADMD, PRMD, O, OU1 to OU4.
pub const LEVELS: usize = 8;

// How many of the levels are attributes that a record has once: C, ADMD, PRMD and O. The units follow.
pub const OWN_LEVELS: usize = 4;

// How many units, and how many DDs, a record has at most.
pub const MOST: usize = 4;

// X.411's upper bounds. C has three digits, or the two letters of the last entry.
pub const BOUNDS: [usize; ENTRIES] = [
    3, // C
    16, // ADMD
    16, // PRMD
    64, // O
    64, // CN
    40, // S
    16, // G
    5, // I
    3, // GQ
    32, // OU
    8, // DD_TYPE
    128, // DD_VALUE
    2, // C_LETTERS
];

// The rooms of the record's texts, from the table. No attribute that a record has once has a larger bound than O.
pub const VALUE_ROOM: usize = BOUNDS[O];

pub const OU_ROOM: usize = BOUNDS[OU];

pub const DD_TYPE_ROOM: usize = BOUNDS[DD_TYPE];

pub const DD_VALUE_ROOM: usize = BOUNDS[DD_VALUE];

pub fn bound(k: usize) -> usize
    requires { k < entries }
    ensures { result ≡ bound_of k }
{
    BOUNDS[k]
}

// A value within bound k: not empty, printable string characters, well spaced.
#[tactic(auto, unfolding(crate::specs::Bounds::is_value))]
pub fn is_value(k: usize, s: &[u8]) -> bool
    requires { k < entries }
    ensures { result ≡ is_value k s.now }
{
    s.len() <= bound(k) && is_text(s)
}

// Two letters or three digits.
#[tactic(auto, unfolding(crate::specs::Bounds::is_country, chars::specs::Class::is_in))]
pub fn is_country(s: &[u8]) -> bool
    ensures { result ≡ is_country s.now }
{
    s.len() == bound(C_LETTERS) && all_in(s, Class::Letter)
        || s.len() == bound(C) && all_in(s, Class::Digit)
}

// One space, which an ADMD may be.
#[tactic(auto, unfolding(crate::specs::Bounds::is_space))]
pub fn is_space(s: &[u8]) -> bool
    ensures { result ≡ is_space s.now }
{
    equal_text(s, b" ")
}

// The own rule of the attribute with the number k, for a value that is present.
#[tactic(auto, unfolding(crate::specs::Bounds::rule))]
pub fn keeps_rule(k: usize, s: &[u8]) -> bool
    requires { k < entries }
    ensures { result ≡ rule k s.now }
{
    if k == C {
        return is_country(s);
    }
    is_value(k, s) || k == ADMD && is_space(s)
}
