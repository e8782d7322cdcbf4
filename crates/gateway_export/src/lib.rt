// The results of the mappings and of the check as the functions for C return them: a number and a count in one value, and a text in the lent
// buffer. The functions under a table text and those under a list share this.
#![tactic(auto)]

ghost use Rattle.std.specs.Prelude.{◌≡◌, [], ◌≤◌, MatchResult};
ghost use Rattle.mapping.specs.Answers.{address_bad_line, told_address, told_record};
ghost use Rattle.soundness.specs.Check.{told_check};
ghost use Rattle.gateway_pack.specs.Packed.{most_count, packed_count};
ghost use Rattle.gateway_export.specs.Exports.{Exported, Packable, PackableCheck, TellsCheck, packed, text_result};

use gateway_pack::{NUMBER_LIMIT, pack};
use gateway_text::write::{show, write_canonical};
use mapping::answers::{AddressRefusal, RecordRefusal, Refusal};
use oraddr::record::Record;
use soundness::answers::CheckRefusal;

// A refusal of either mapping: its number, and with 7 the line.
fn pack_refusal<R: Refusal>(refusal: R) -> usize
    requires { R.line refusal ≤ most_count }
    ensures { result ≡ packed_count (R.number refusal) (R.line refusal) 0 }
{
    pack(refusal.number(), refusal.line(), 0)
}

// A result of record to address, whose text is in the buffer already.
pub fn pack_address(done: Result<usize, AddressRefusal>) -> usize
    requires { MatchResult done (λ n. n ≤ most_count) (λ e. address_bad_line e ≤ most_count) }
    ensures { result ≡ packed (told_address done []) }
{
    match done {
        Ok(n) => pack(0, 0, n),
        Err(refusal) => pack_refusal(refusal),
    }
}

// A result of address to record: the record's text goes to `out`.
pub fn pack_record(done: Result<Record, RecordRefusal>, out: &mut [u8]) -> usize
    requires { Packable (told_record done) }
    ensures { Exported (text_result (told_record done) out.old) result out.new }
{
    match done {
        Ok(rec) => pack_address(write_canonical(rec, out)),
        Err(refusal) => pack_refusal(refusal),
    }
}

// A result of the check: a witness's text goes to `out`, if it fits.
pub fn pack_check(done: Result<(), CheckRefusal>, out: &mut [u8]) -> usize
    requires { PackableCheck (told_check done) }
    ensures { TellsCheck (told_check done) out.old result out.new }
{
    let Err(refusal) = done else {
        return 0;
    };
    match refusal {
        CheckRefusal::Unsound(witness) => 8 + NUMBER_LIMIT * show(witness, out),
        CheckRefusal::Malformed(line) => 7 + NUMBER_LIMIT * line,
    }
}
