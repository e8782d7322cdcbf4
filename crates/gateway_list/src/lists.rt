// The entry points: the text first, then the rows. Each lays the rows out as numbers and calls the function over those. The first 514 are
// laid out: the last of them is bad already, so that no table has more. They are alike but for
// the call: each hands out another result under another promise, which a closure's contract would have to name.
ghost use Rattle.std.specs.Prelude.{◌≡◌};
ghost use Rattle.rowlist_load.specs.Listed.{listed_from};
ghost use Rattle.mapping.specs.Answers.{told_address, told_record};
ghost use Rattle.mapping.specs.ToAddress.{to_address_by};
ghost use Rattle.mapping.specs.ToRecord.{to_record_by};
ghost use Rattle.soundness.specs.Check.{Demand3, told_check};
ghost use Rattle.router.specs.Run.{Routing};

use crate::numbers::{numbers_check, numbers_route, numbers_to_address, numbers_to_record};
use mapping::answers::{AddressRefusal, RecordRefusal};
use oraddr::record::Record;
use router::run::Routed;
use rowlist::{LIST_ROOM, RowEntry};
use soundness::answers::CheckRefusal;

// An address to a record, under a list of rows over a text: 0, 1, 2, 3 or 7.
pub fn list_to_record(
    text: &[u8],
    rows: &[RowEntry],
    address: &[u8],
) -> Result<Record, RecordRefusal>
    ensures { told_record result ≡ to_record_by (listed_from text.now rows.now) address.now }
{
    let mut numbers = [0usize; LIST_ROOM];
    let n = rowlist::spread(rows, &mut numbers);
    numbers_to_record(text, &numbers, n, address)
}

// A record to an address in a lent buffer, under a list: 0, 4, 5, 6 or 7.
pub fn list_to_address(
    text: &[u8],
    rows: &[RowEntry],
    rec: Record,
    out: &mut [u8],
) -> Result<usize, AddressRefusal>
    ensures { told_address result out.new ≡ to_address_by (listed_from text.now rows.now) rec out.old }
{
    let mut numbers = [0usize; LIST_ROOM];
    let n = rowlist::spread(rows, &mut numbers);
    numbers_to_address(text, &numbers, n, rec, out)
}

// The check of a list: 0, 7, or 8 with a witness.
pub fn check_list(text: &[u8], rows: &[RowEntry]) -> Result<(), CheckRefusal>
    ensures { Demand3 (listed_from text.now rows.now) (told_check result) }
{
    let mut numbers = [0usize; LIST_ROOM];
    let n = rowlist::spread(rows, &mut numbers);
    numbers_check(text, &numbers, n)
}

// The next part of a run of lines, under a list.
pub fn route_list(
    text: &[u8],
    rows: &[RowEntry],
    over: bool,
    input: &[u8],
    last: bool,
    out: &mut [u8],
) -> Routed
    ensures { Routing (listed_from text.now rows.now) over input.now last out.old result out.new }
{
    let mut numbers = [0usize; LIST_ROOM];
    let n = rowlist::spread(rows, &mut numbers);
    numbers_route(text, &numbers, n, over, input, last, out)
}
