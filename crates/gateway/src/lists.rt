// The functions for C under a list: a table's rows as a lent list of structs over a text. Each lays the rows out as numbers and calls the
// function over those; docs/include/gateway.h says what they do. They are alike but for the call: C has a name and a signature for each.
ghost use Rattle.rowlist_load.specs.Listed.{listed_from};
ghost use Rattle.mapping.specs.ToRecord.{to_record_by};
ghost use Rattle.router.specs.Run.{Routing};
ghost use Rattle.gateway_export.specs.Exports.{Exported, ExportedCheck, text_result, text_to_address_by};

use gateway_list::packed::{packed_check, packed_route, packed_to_address, packed_to_record};
use rowlist::{LIST_ROOM, RowEntry};

// An address to a record's text in `out`.
pub fn gateway_list_to_record(
    text: &[u8],
    rows: &[RowEntry],
    address: &[u8],
    out: &mut [u8],
) -> usize
    ensures { Exported (text_result (to_record_by (listed_from text.now rows.now) address.now) out.old)
        result out.new }
{
    let mut numbers = [0usize; LIST_ROOM];
    let n = rowlist::spread(rows, &mut numbers);
    packed_to_record(text, &numbers, n, address, out)
}

// A record text to an address in `out`.
pub fn gateway_list_to_address(
    text: &[u8],
    rows: &[RowEntry],
    record_text: &[u8],
    out: &mut [u8],
) -> usize
    ensures { Exported (text_to_address_by (listed_from text.now rows.now) record_text.now out.old)
        result out.new }
{
    let mut numbers = [0usize; LIST_ROOM];
    let n = rowlist::spread(rows, &mut numbers);
    packed_to_address(text, &numbers, n, record_text, out)
}

// The check of a list, and a witness's text in `out`, if it fits.
pub fn gateway_list_check(text: &[u8], rows: &[RowEntry], out: &mut [u8]) -> usize
    ensures { ExportedCheck (listed_from text.now rows.now) out.old result out.new }
{
    let mut numbers = [0usize; LIST_ROOM];
    let n = rowlist::spread(rows, &mut numbers);
    packed_check(text, &numbers, n, out)
}

// The next part of a run of lines.
pub fn gateway_list_route(
    text: &[u8],
    rows: &[RowEntry],
    over: bool,
    input: &[u8],
    last: bool,
    out: &mut [u8],
    taken: &mut usize,
    written: &mut usize,
) -> bool
    ensures { Routing (listed_from text.now rows.now) over input.now last out.old
        (record { over = result; taken = taken.new; written = written.new }) out.new }
{
    let mut numbers = [0usize; LIST_ROOM];
    let n = rowlist::spread(rows, &mut numbers);
    packed_route(text, &numbers, n, over, input, last, out, taken, written)
}
