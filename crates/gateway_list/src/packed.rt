// The same for C: a result in one value, and a text in the lent buffer. No function for C takes or returns an enum, so what is packed is
// packed here.
// `text, numbers, n` and the bound on them stand as `rowlist_load` asks them of its callers, and
// `over, input, last, out` and what follows travel together as C has them.
ghost use Rattle.std.specs.Prelude.{◌*◌, ◌≤◌, length};
ghost use Rattle.rowlist.specs.Entries.{entries_of, entry_size};
ghost use Rattle.rowlist_load.specs.Listed.{listed_from};
ghost use Rattle.mapping.specs.ToRecord.{to_record_by};
ghost use Rattle.router.specs.Run.{Routing};
ghost use Rattle.gateway_export.specs.Exports.{Exported, ExportedCheck, text_result, text_to_address_by};

use crate::numbers::{numbers_check, numbers_route, numbers_to_address, numbers_to_record};
use gateway_export::{pack_address, pack_check, pack_record};
use gateway_text::read::read_record;

// An address to a record's text in `out`.
pub fn packed_to_record(
    text: &[u8],
    numbers: &[usize],
    n: usize,
    address: &[u8],
    out: &mut [u8],
) -> usize
    requires { n * entry_size ≤ length numbers.now }
    ensures { Exported (text_result (to_record_by (listed_from text.now (entries_of numbers.now n)) address.now)
        out.old) result out.new }
{
    pack_record(numbers_to_record(text, numbers, n, address), out)
}

// A record text to an address in `out`. A text that gives no canonical record gives an empty one, which has the refusals of any that is not
// canonical.
pub fn packed_to_address(
    text: &[u8],
    numbers: &[usize],
    n: usize,
    record_text: &[u8],
    out: &mut [u8],
) -> usize
    requires { n * entry_size ≤ length numbers.now }
    ensures { Exported (text_to_address_by (listed_from text.now (entries_of numbers.now n)) record_text.now
        out.old) result out.new }
{
    let rec = read_record(record_text).record;
    pack_address(numbers_to_address(text, numbers, n, rec, out))
}

// The check, and a witness's text in `out`, if it fits.
pub fn packed_check(text: &[u8], numbers: &[usize], n: usize, out: &mut [u8]) -> usize
    requires { n * entry_size ≤ length numbers.now }
    ensures { ExportedCheck (listed_from text.now (entries_of numbers.now n)) out.old result out.new }
{
    pack_check(numbers_check(text, numbers, n), out)
}

// The next part of a run of lines.
pub fn packed_route(
    text: &[u8],
    numbers: &[usize],
    n: usize,
    over: bool,
    input: &[u8],
    last: bool,
    out: &mut [u8],
    taken: &mut usize,
    written: &mut usize,
) -> bool
    requires { n * entry_size ≤ length numbers.now }
    ensures { Routing (listed_from text.now (entries_of numbers.now n)) over input.now last
        out.old (record { over = result; taken = taken.new; written = written.new }) out.new }
{
    let done = numbers_route(text, numbers, n, over, input, last, out);
    *taken = done.taken;
    *written = done.written;
    done.over
}
