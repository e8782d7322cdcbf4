// Every entry point of the library, each with its promise. Each takes any bytes. Those under a list of rows, and those for record text by
// itself, the router, dates, the restricted encoding and mailboxes stand with their contracts in the crates that the lines below name.
ghost use Rattle.std.specs.Prelude.{◌≡◌};
ghost use Rattle.oraddr.specs.Add.{add_dd, add_single, add_unit, place_of, told};
ghost use Rattle.mailaddr.specs.Tail.{TailShown};
ghost use Rattle.table.specs.Lines.{loaded_from};
ghost use Rattle.mapping.specs.Answers.{told_address, told_record};
ghost use Rattle.mapping.specs.ToAddress.{record_to_address};
ghost use Rattle.mapping.specs.ToRecord.{address_to_record};
ghost use Rattle.soundness.specs.Check.{Demand3, told_check};

pub use gateway_dates::{date_to_822, date_to_x400};
pub use gateway_list::lists::{check_list, list_to_address, list_to_record, route_list};
pub use gateway_mailbox::{mailbox, phrase_place};
pub use gateway_restricted::{restrict, unrestrict};
pub use gateway_route::route;
pub use gateway_text::read::read_record;
pub use gateway_text::write::write_record;
use mapping::answers::{AddressRefusal, RecordRefusal};
use mapping_to_address::to_address::record_to_address;
use mapping_to_record::to_record::address_to_record;
use oraddr::add::{Addition, Attribute};
use oraddr::record::Record;
use soundness::answers::CheckRefusal;

// An address to a record, under a table text: 0, 1, 2, 3 or 7.
pub fn to_record(table: &[u8], address: &[u8]) -> Result<Record, RecordRefusal>
    ensures { told_record result ≡ address_to_record table.now address.now }
{
    address_to_record(table, address)
}

// A record to an address in a lent buffer, under a table text: 0, 4, 5, 6 or 7.
pub fn to_address(table: &[u8], rec: Record, out: &mut [u8]) -> Result<usize, AddressRefusal>
    ensures { told_address result out.new ≡ record_to_address table.now rec out.old }
{
    record_to_address(table, rec, out)
}

// The check of a table text: 0, 7, or 8 with a witness.
pub fn check(table: &[u8]) -> Result<(), CheckRefusal>
    ensures { Demand3 (loaded_from table.now) (told_check result) }
{
    soundness_check::check::check(table)
}

// Adds an attribute that a record has once: 0 or 4.
pub fn add(rec: Record, a: Attribute, value: &[u8]) -> Addition
    ensures { told result ≡ add_single rec (place_of a) value.now }
{
    rec.with(a, value)
}

// Adds a unit behind those that are there: 0 or 4.
pub fn add_unit(rec: Record, name: &[u8]) -> Addition
    ensures { told result ≡ add_unit rec name.now }
{
    rec.with_unit(name)
}

// Adds a domain-defined attribute behind those that are there: 0 or 4.
pub fn add_dd(rec: Record, kind: &[u8], value: &[u8]) -> Addition
    ensures { told result ≡ add_dd rec kind.now value.now }
{
    rec.with_dd(kind, value)
}

// The longest tail of the first domain by whole parts that the second has too, case aside, as a part of the first.
pub fn shared_tail<'a, 'b>(first: &'a [u8], second: &'b [u8]) -> &'a [u8]
    ensures { TailShown first.entry second.now result }
{
    mailaddr::tail::shared_tail(first, second)
}
