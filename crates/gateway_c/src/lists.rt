// The symbols of the functions for C under a list of rows. Each is the function of `gateway` that has its name, with the same promise.
ghost use Rattle.rowlist_load.specs.Listed.{listed_from};
ghost use Rattle.mapping.specs.ToRecord.{to_record_by};
ghost use Rattle.router.specs.Run.{Routing};
ghost use Rattle.gateway_export.specs.Exports.{Exported, ExportedCheck, text_result, text_to_address_by};

use gateway::lists;
use rowlist::RowEntry;

// An address to a record's text in `out`.
#[unsafe(no_mangle)]
pub extern "C" fn gateway_list_to_record(
    text: &[u8],
    rows: &[RowEntry],
    address: &[u8],
    out: &mut [u8],
) -> usize
    ensures { Exported (text_result (to_record_by (listed_from text.now rows.now) address.now) out.old)
        result out.new }
{
    lists::gateway_list_to_record(text, rows, address, out)
}

// A record text to an address in `out`.
#[unsafe(no_mangle)]
pub extern "C" fn gateway_list_to_address(
    text: &[u8],
    rows: &[RowEntry],
    record_text: &[u8],
    out: &mut [u8],
) -> usize
    ensures { Exported (text_to_address_by (listed_from text.now rows.now) record_text.now out.old)
        result out.new }
{
    lists::gateway_list_to_address(text, rows, record_text, out)
}

// The check of a list, and a witness's text in `out`, if it fits.
#[unsafe(no_mangle)]
pub extern "C" fn gateway_list_check(text: &[u8], rows: &[RowEntry], out: &mut [u8]) -> usize
    ensures { ExportedCheck (listed_from text.now rows.now) out.old result out.new }
{
    lists::gateway_list_check(text, rows, out)
}

// The next part of a run of lines.
#[unsafe(no_mangle)]
pub extern "C" fn gateway_list_route(
    text: &[u8],
    rows: &[RowEntry],
    over: bool,
    input: &[u8],
    last: bool,
    out: &mut [u8],
    taken: &mut usize,
    written: &mut usize,
) -> bool
    ensures { Routing (listed_from text.now rows.now) over input.now last out.old
        (record { over = result; taken = taken.new; written = written.new }) out.new }
{
    lists::gateway_list_route(text, rows, over, input, last, out, taken, written)
}
