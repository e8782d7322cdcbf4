// The functions for C and for Rust without Rattle, which `gateway_c` gives their symbols. Each slice is a pointer and a length there;
// docs/include/gateway.h says what they do.
// `over, input, last, out` and what follows travel together as C has them.
ghost use Rattle.std.specs.Prelude.{◌≡◌, length};
ghost use Rattle.mailaddr.specs.Tail.{shared_tail};
ghost use Rattle.table.specs.Lines.{loaded_from};
ghost use Rattle.router.specs.Run.{Routing};
ghost use Rattle.dates.specs.Convert.{date_to_utc, utc_to_date};
ghost use Rattle.restricted.specs.Convert.{restrict_text, unrestrict_text};
ghost use Rattle.mailbox.specs.Mailbox.{phrase_place, read_mailbox};
ghost use Rattle.gateway_pack.specs.Packed.{ExportedText, packed_place};
ghost use Rattle.gateway_export.specs.Exports.{Exported, ExportedCheck};
ghost use Rattle.gateway.specs.Exports.{address_to_text, text_to_address};

use crate::entry::{check, shared_tail, to_address, to_record};
use gateway_dates::{packed_date_to_822, packed_date_to_x400};
use gateway_export::{pack_address, pack_check, pack_record};
use gateway_mailbox::{packed_mailbox, packed_phrase};
use gateway_restricted::{packed_restrict, packed_unrestrict};
use gateway_route::route;
use gateway_text::read::read_record;

// An address to a record's text in `out`.
pub fn gateway_to_record(table: &[u8], address: &[u8], out: &mut [u8]) -> usize
    ensures { Exported (address_to_text table.now address.now out.old) result out.new }
{
    pack_record(to_record(table, address), out)
}

// A record text to an address in `out`. A text that gives no canonical record gives an empty one, which has the refusals of any that is not
// canonical.
pub fn gateway_to_address(table: &[u8], record_text: &[u8], out: &mut [u8]) -> usize
    ensures { Exported (text_to_address table.now record_text.now out.old) result out.new }
{
    let rec = read_record(record_text).record;
    pack_address(to_address(table, rec, out))
}

// The check of a table text, and a witness's text in `out`, if it fits.
pub fn gateway_check(table: &[u8], out: &mut [u8]) -> usize
    ensures { ExportedCheck (loaded_from table.now) out.old result out.new }
{
    pack_check(check(table), out)
}

// The length of the tail that two domains share.
pub fn gateway_shared_tail(first: &[u8], second: &[u8]) -> usize
    ensures { result ≡ length (shared_tail first.now second.now) }
{
    shared_tail(first, second).len()
}

// The next part of a run of lines.
pub fn gateway_route(
    table: &[u8],
    over: bool,
    input: &[u8],
    last: bool,
    out: &mut [u8],
    taken: &mut usize,
    written: &mut usize,
) -> bool
    ensures { Routing (loaded_from table.now) over input.now last out.old
        (record { over = result; taken = taken.new; written = written.new }) out.new }
{
    let done = route(table, over, input, last, out);
    *taken = done.taken;
    *written = done.written;
    done.over
}

// X.400's UTCTime to RFC 822's date-time in `out`.
pub fn gateway_date_to_822(utc: &[u8], out: &mut [u8]) -> usize
    ensures { ExportedText (utc_to_date utc.now out.old) result out.new }
{
    packed_date_to_822(utc, out)
}

// RFC 822's date-time to X.400's UTCTime in `out`.
pub fn gateway_date_to_x400(date: &[u8], out: &mut [u8]) -> usize
    ensures { ExportedText (date_to_utc date.now out.old) result out.new }
{
    packed_date_to_x400(date, out)
}

// A local part's unquoted text in RFC 1137's restricted encoding, in `out`.
pub fn gateway_restrict(text: &[u8], out: &mut [u8]) -> usize
    ensures { ExportedText (restrict_text text.now out.old) result out.new }
{
    packed_restrict(text, out)
}

// A text in that encoding back to what it stands for, in `out`.
pub fn gateway_unrestrict(text: &[u8], out: &mut [u8]) -> usize
    ensures { ExportedText (unrestrict_text text.now out.old) result out.new }
{
    packed_unrestrict(text, out)
}

// The bare address of a header line's mailbox, in `out`.
pub fn gateway_mailbox(line: &[u8], out: &mut [u8]) -> usize
    ensures { ExportedText (read_mailbox line.now out.old).text result out.new }
{
    packed_mailbox(line, out)
}

// Where the phrase of a header line's mailbox stands, in one value.
pub fn gateway_phrase(line: &[u8]) -> usize
    ensures { result ≡ packed_place (phrase_place line.now) }
{
    packed_phrase(line)
}
