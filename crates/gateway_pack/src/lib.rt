// A result in one value, as the functions for C return it, and a text in a buffer where it fits.
#![tactic(auto)]

ghost use Rattle.std.specs.Prelude.{◌≡◌, ◌≤◌, ◌<◌, [], IfErr, ℕ};
ghost use Rattle.gateway_pack.specs.Filled.{filled};
ghost use Rattle.gateway_pack.specs.Packed.{PackedResult, most_count, number_limit, packed_count, packed_place, packed_text, place_limit};

use chars::write::place;

// More than any number: a count stands this many times in its value.
pub const NUMBER_LIMIT: usize = 16;

// 2^60: more bytes than any buffer has, since an address of the machine has 57 bits at most.
const LENGTH_LIMIT: usize = 1152921504606846976;

// More than where a phrase can start: a start stands this many times in its value.
const PLACE_LIMIT: usize = 65536;

// A number with the line that belongs to 7, or the length that belongs to any other.
#[tactic(auto, unfolding(crate::specs::Packed::packed_count))]
pub fn pack(number: usize, line: usize, size: usize) -> usize
    requires number_lt_number_limit { number < number_limit }
    requires line_le_most_count { line ≤ most_count }
    requires size_le_most_count { size ≤ most_count }
    ensures { result ≡ packed_count number line size }
{
    if number == 7 {
        return number + NUMBER_LIMIT * line;
    }
    number + NUMBER_LIMIT * size
}

// A number and a text's length. The remainder changes no length that there is, and for any keeps the value in range.
pub fn pack_text(number: usize, size: usize) -> usize
    requires { number < number_limit }
    ensures { result ≡ packed_text (record { number = number; size = size; buffer = [] }) }
{
    number + NUMBER_LIMIT * (size % LENGTH_LIMIT)
}

// Where a phrase starts, and its length.
pub fn pack_place(start: usize, size: usize) -> usize
    requires start_lt_place_limit { start < place_limit }
    requires size_lt_place_limit { size < place_limit }
    ensures { result ≡ packed_place (record { start = start; size = size }) }
{
    start * PLACE_LIMIT + size
}

// What came of writing a text, in one value: the text's length, or the refusal by its number.
pub fn pack_result<E: Into<usize>>(done: Result<usize, E>) -> usize
    requires { IfErr done (λ fault. (n : ℕ) → E.converts fault n → n < number_limit) }
    ensures { PackedResult E.converts done result }
{
    match done {
        Ok(size) => pack_text(0, size),
        Err(fault) => pack_text(fault.into(), 0),
    }
}

// A text in `out`, if it fits.
#[tactic(auto, using(std::proofs::lemmas::Bool::Decides::nat_tests, chars::proofs::Laws::Write::fits_front), unfolding(crate::specs::Filled::filled, chars::specs::Write::placed_buffer))]
pub fn fill(out: &mut [u8], s: &[u8])
    ensures { out.new ≡ filled s.now out.old }
{
    place(out, s);
}
