// Document 01's answers of the two mappings with their numbers, and a text put into a lent buffer.
ghost use Rattle.std.specs.Prelude.{◌≡◌, ℕ, ◌≤◌};
ghost use Rattle.mapping.specs.Results.{placed};
ghost use Rattle.mapping.specs.declared.answers.AddressRefusal.TheVariants.{Malformed as AddressMalformed};
ghost use Rattle.mapping.specs.declared.answers.RecordRefusal.TheVariants.{Malformed as RecordMalformed};
ghost use Rattle.mapping.specs.Answers.{address_bad_line, address_number, record_bad_line, record_number, told_address};

use table::load::Malformed;

// Why there is no answer: a number that callers get, and with 7 the number of the table's first bad line, else 0.
pub trait Refusal: Copy {
    ghost number: { Self → ℕ };

    ghost line: { Self → ℕ };

    fn number(self) -> usize
        ensures value { result ≡ number self }
        ensures small { result ≤ 7 };

    fn line(self) -> usize
        ensures { result ≡ line self };
}

// Why a record has no address in a buffer: document 01's 4, 5, 6 and 7.
#[derive(Clone, Copy, Debug, PartialEq, Eq)]
pub enum AddressRefusal {
    NotCanonical,
    NoAddress,
    ShortBuffer,
    Malformed(usize),
}

// Why an address has no record: document 01's 1, 2, 3 and 7.
#[derive(Clone, Copy, Debug, PartialEq, Eq)]
pub enum RecordRefusal {
    NoShape,
    TooLong,
    TooLongCoded,
    Malformed(usize),
}

impl Refusal for AddressRefusal {
    ghost number = { address_number };

    ghost line = { address_bad_line };

    #[tactic(auto, unfolding(crate::specs::Answers::address_number))]
    fn number(self) -> usize {
        match self {
            AddressRefusal::NotCanonical => 4,
            AddressRefusal::NoAddress => 5,
            AddressRefusal::ShortBuffer => 6,
            AddressRefusal::Malformed(_) => 7,
        }
    }

    #[tactic(auto, unfolding(crate::specs::Answers::address_bad_line))]
    fn line(self) -> usize {
        if let AddressRefusal::Malformed(line) = self {
            line
        } else {
            0
        }
    }
}

impl Refusal for RecordRefusal {
    ghost number = { record_number };

    ghost line = { record_bad_line };

    #[tactic(auto, unfolding(crate::specs::Answers::record_number))]
    fn number(self) -> usize {
        match self {
            RecordRefusal::NoShape => 1,
            RecordRefusal::TooLong => 2,
            RecordRefusal::TooLongCoded => 3,
            RecordRefusal::Malformed(_) => 7,
        }
    }

    #[tactic(auto, unfolding(crate::specs::Answers::record_bad_line))]
    fn line(self) -> usize {
        if let RecordRefusal::Malformed(line) = self {
            line
        } else {
            0
        }
    }
}

// A table that is malformed: 7 with its line.
impl From<Malformed> for AddressRefusal {
    ghost from_gives = { λ m e. e ≡ AddressMalformed m.line };

    fn from(malformed: Malformed) -> AddressRefusal {
        AddressRefusal::Malformed(malformed.line)
    }
}

impl From<Malformed> for RecordRefusal {
    ghost from_gives = { λ m e. e ≡ RecordMalformed m.line };

    fn from(malformed: Malformed) -> RecordRefusal {
        RecordRefusal::Malformed(malformed.line)
    }
}

// Copies a text out, if it fits.
#[tactic(auto, using(std::proofs::lemmas::Bool::Decides::nat_tests, chars::proofs::Laws::Write::fits_front), unfolding(crate::specs::Results::placed, crate::specs::Results::refused_address, crate::specs::Answers::told_address, crate::specs::Answers::address_number, crate::specs::Answers::address_bad_line, chars::specs::Write::placed_size, chars::specs::Write::placed_buffer))]
pub fn place(out: &mut [u8], s: &[u8]) -> Result<usize, AddressRefusal>
    ensures { told_address result out.new ≡ placed s.now out.old }
{
    chars::write::place(out, s).ok_or(AddressRefusal::ShortBuffer)
}
