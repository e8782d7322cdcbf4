// Byte classes (document 01, "The record", "The table text", "Address to record").
ghost use Rattle.std.specs.Prelude.{◌≡◌};
ghost use Rattle.chars.specs.Class.{is_atom_char, is_digit, is_in, is_label_char, is_letter, is_printable, is_quotable, PrintableIsTheList};
ghost use Rattle.chars.specs.Lists.{all};

// The highest code of an ASCII character.
pub const HIGHEST_CODE: u8 = 127;

// A class by its name, for the loops that test a whole string. An enum: as a trait it would take a type and an impl for each class and be no
// plainer, and a closure's contract names no test, so that no equation could say what a loop over it answers.
#[derive(Clone, Copy)]
pub enum Class {
    Letter,
    Digit,
    // a printable string character
    Printable,
    // one of those, or `$`, which quotes them
    Quotable,
    // a character of an RFC 822 atom
    Atom,
    // a letter, a digit or a hyphen
    Label,
    Any,
}

#[tactic(auto, using(std::proofs::lemmas::Bool::Decides::nat_tests), unfolding(crate::specs::Class::is_letter, crate::specs::Class::between))]
pub fn is_letter(b: u8) -> bool
    ensures { result ≡ is_letter b }
{
    b.is_ascii_alphabetic()
}

#[tactic(auto, using(std::proofs::lemmas::Bool::Decides::nat_tests), unfolding(crate::specs::Class::is_digit, crate::specs::Class::between))]
pub fn is_digit(b: u8) -> bool
    ensures { result ≡ is_digit b }
{
    b.is_ascii_digit()
}

// The printable string characters, range by range from the last one down, so that the letters, which most texts are made of, come
// first. RFC 1327, section 3.3.3, has them as `ps-char`.
// A ladder: `matches!` and `match` of these ranges were tried, and cost more, a quarter more instructions or twice the time.
#[tactic(auto, using(std::proofs::lemmas::Bool::Decides::nat_tests), unfolding(crate::specs::Class::is_printable, crate::specs::Class::in_one_of, crate::specs::Class::printable_ranges, crate::specs::Class::between))]
pub fn is_printable(b: u8) -> bool
    ensures { result ≡ is_printable b }
{
    if b'a' <= b {
        // a b c d e f g h i j k l m n o p q r s t u v w x y z
        b <= b'z'
    } else if b'A' <= b {
        // A B C D E F G H I J K L M N O P Q R S T U V W X Y Z
        b <= b'Z'
    } else if b'?' <= b {
        // ?
        b == b'?'
    } else if b'=' <= b {
        // =
        b == b'='
    } else if b'+' <= b {
        // + , - . / 0 1 2 3 4 5 6 7 8 9 :
        b <= b':'
    } else if b'\'' <= b {
        // ' ( )
        b <= b')'
    } else {
        // space
        b == b' '
    }
}

// Does nothing: its contract is that the answer for each of the 256 bytes is document 01's list.
pub fn printable_is_the_list()
    ensures { PrintableIsTheList }
{}

// A printable string character, or the `$` that quotes one.
#[tactic(auto, using(std::proofs::lemmas::Bool::Decides::nat_tests), unfolding(crate::specs::Class::is_quotable))]
pub fn is_quotable(b: u8) -> bool
    ensures { result ≡ is_quotable b }
{
    b == b'$' || is_printable(b)
}

// RFC 822's atom characters: bytes 33 to 126 without `( ) < > @ , ; : \ " . [ ]`. Here too the letters come
// first, and for the same reason.
#[tactic(auto, using(std::proofs::lemmas::Bool::Decides::nat_tests), unfolding(crate::specs::Class::is_atom_char, crate::specs::Class::between, crate::specs::Lists::member, crate::specs::Lists::bytes))]
pub fn is_atom_char(b: u8) -> bool
    ensures { result ≡ is_atom_char b }
{
    if b'^' <= b {
        b <= b'~'
    } else if b'A' <= b {
        b <= b'Z'
    } else if b'?' <= b {
        b == b'?'
    } else if b'=' <= b {
        b == b'='
    } else if b'/' <= b {
        b <= b'9'
    } else if b'-' <= b {
        b == b'-'
    } else if b'*' <= b {
        b <= b'+'
    } else if b'#' <= b {
        b <= b'\''
    } else {
        b == b'!'
    }
}

#[tactic(auto, using(std::proofs::lemmas::Bool::Decides::nat_tests), unfolding(crate::specs::Class::is_label_char, crate::specs::Class::is_letter, crate::specs::Class::is_digit, crate::specs::Class::between))]
pub fn is_label_char(b: u8) -> bool
    ensures { result ≡ is_label_char b }
{
    b.is_ascii_alphanumeric() || b == b'-'
}

pub fn is_in(class: Class, b: u8) -> bool
    ensures { result ≡ is_in class b }
{
    match class {
        Class::Letter => is_letter(b),
        Class::Digit => is_digit(b),
        Class::Printable => is_printable(b),
        Class::Quotable => is_quotable(b),
        Class::Atom => is_atom_char(b),
        Class::Label => is_label_char(b),
        Class::Any => true,
    }
}

// Whether each byte of `s` is of the class.
pub fn all_in(s: &[u8], class: Class) -> bool
    ensures { result ≡ all (is_in class) s.now }
{
    s.iter().all(|&b| is_in(class, b))
}
