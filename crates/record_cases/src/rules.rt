// The byte classes and the fold of a byte, and the rules on whole texts.
use crate::print::{new_line, space};
use cases::print::{Output, say_flag, say_number};
use chars::case::fold_case;
use chars::class::{is_atom_char, is_digit, is_label_char, is_letter, is_printable};
use chars::parts::{byte_at, is_atoms, is_domain_part, is_text, well_spaced};

// Letter, digit, printable string character, atom character, label character.
fn print_classes(to: &mut Output, b: u8) {
    say_flag(to, is_letter(b));
    say_flag(to, is_digit(b));
    say_flag(to, is_printable(b));
    say_flag(to, is_atom_char(b));
    say_flag(to, is_label_char(b));
}

pub(crate) fn print_byte(to: &mut Output, text: &[u8]) {
    let b = byte_at(text, 0);
    print_classes(to, b);
    space(to);
    say_number(to, fold_case(b) as usize);
    new_line(to);
}

// The spaces rule, a value's text, atoms, a domain part.
pub(crate) fn print_text(to: &mut Output, text: &[u8]) {
    say_flag(to, well_spaced(text));
    say_flag(to, is_text(text));
    say_flag(to, is_atoms(text));
    say_flag(to, is_domain_part(text));
    new_line(to);
}
