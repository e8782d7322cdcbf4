// Document 01's answers of the table check.
ghost use Rattle.soundness.specs.Sound.{Sound};

use oraddr::record::Record;

// Why the check does not accept a table: it is well formed but unsound, with a witness; or malformed, with the number of its first bad line.
#[derive(Clone, Copy)]
pub enum CheckRefusal {
    Unsound(Record),
    Malformed(usize),
}
