// The mappings, the check and the router under a list of n rows, each laid out as five numbers. Each loads the rows into two arrays of its
// own, and goes on as it does under a table text. (Two lines that each begins with: a function that lends the table on would hold the arrays in a
// closure's frame.)
// `text, numbers, n` and the bound on them stand as `rowlist_load` asks them of its callers, who lend the numbers.
ghost use Rattle.std.specs.Prelude.{◌≡◌, ◌*◌, ◌≤◌, length};
ghost use Rattle.rowlist.specs.Entries.{entries_of, entry_size};
ghost use Rattle.rowlist_load.specs.Listed.{listed_from};
ghost use Rattle.mapping.specs.Answers.{told_address, told_record};
ghost use Rattle.mapping.specs.ToAddress.{to_address_by};
ghost use Rattle.mapping.specs.ToRecord.{to_record_by};
ghost use Rattle.soundness.specs.Check.{Demand3, told_check};
ghost use Rattle.router.specs.Run.{Routing};

use mapping::answers::{AddressRefusal, RecordRefusal};
use mapping::sides::Inward;
use mapping_to_address::to_address::record_under;
use mapping_to_record::to_record::address_under;
use oraddr::record::Record;
use router::run::Routed;
use rowlist_load::read::read_list;
use soundness::answers::CheckRefusal;
use soundness_check::check::check_under;
use table::rows::ROWS_SIZE;

// An address to a record.
pub fn numbers_to_record(
    text: &[u8],
    numbers: &[usize],
    n: usize,
    address: &[u8],
) -> Result<Record, RecordRefusal>
    requires { n * entry_size ≤ length numbers.now }
    ensures { told_record result ≡ to_record_by (listed_from text.now (entries_of numbers.now n)) address.now }
{
    let mut to_path = [0usize; ROWS_SIZE];
    let mut to_domain = [0usize; ROWS_SIZE];
    let read = read_list(text, numbers, n, &mut to_path, &mut to_domain);
    address_under(Inward::of_read(read), address)
}

// A record to an address in a lent buffer.
pub fn numbers_to_address(
    text: &[u8],
    numbers: &[usize],
    n: usize,
    rec: Record,
    out: &mut [u8],
) -> Result<usize, AddressRefusal>
    requires { n * entry_size ≤ length numbers.now }
    ensures { told_address result out.new ≡ to_address_by (listed_from text.now (entries_of numbers.now n)) rec out.old }
{
    let mut to_path = [0usize; ROWS_SIZE];
    let mut to_domain = [0usize; ROWS_SIZE];
    let read = read_list(text, numbers, n, &mut to_path, &mut to_domain);
    record_under(read, rec, out)
}

// The check.
pub fn numbers_check(text: &[u8], numbers: &[usize], n: usize) -> Result<(), CheckRefusal>
    requires { n * entry_size ≤ length numbers.now }
    ensures { Demand3 (listed_from text.now (entries_of numbers.now n)) (told_check result) }
{
    let mut to_path = [0usize; ROWS_SIZE];
    let mut to_domain = [0usize; ROWS_SIZE];
    let read = read_list(text, numbers, n, &mut to_path, &mut to_domain);
    check_under(&read)
}

// The next part of a run of lines.
pub fn numbers_route(
    text: &[u8],
    numbers: &[usize],
    n: usize,
    over: bool,
    input: &[u8],
    last: bool,
    out: &mut [u8],
) -> Routed
    requires { n * entry_size ≤ length numbers.now }
    ensures { Routing (listed_from text.now (entries_of numbers.now n)) over input.now last
        out.old result out.new }
{
    let mut to_path = [0usize; ROWS_SIZE];
    let mut to_domain = [0usize; ROWS_SIZE];
    let read = read_list(text, numbers, n, &mut to_path, &mut to_domain);
    router::run::route(&read, over, input, last, out)
}
