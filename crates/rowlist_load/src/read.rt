// A list of rows read into a table that keeps its text and the two lent lists.
// The two lists are lent, ROWS_SIZE long, which is asked: an array in the type would ask more of a caller that has slices.
ghost use Rattle.std.specs.Prelude.{◌≡◌, ◌*◌, ◌≤◌, IfOk, length};
ghost use Rattle.rowlist.specs.Entries.{entries_of, entry_size};
ghost use Rattle.table.specs.Rows.{rows_size};
ghost use Rattle.table_load.specs.Tables.{InLists, table_answer};
ghost use Rattle.rowlist_load.specs.Listed.{listed_from};

use crate::load::load_entries;
use table::load::Malformed;
use table_load::tables::Table;

// Reads a list of n entries over a text. The rows go to the two lent lists, each of which has room for all, and stay there with the table.
pub fn read_list<'a>(
    text: &'a [u8],
    numbers: &[usize],
    n: usize,
    to_path: &'a mut [usize],
    to_domain: &'a mut [usize],
) -> Result<Table<'a>, Malformed>
    requires entry_size_in_bounds { n * entry_size ≤ length numbers.now }
    requires to_path_len { length to_path.old ≡ rows_size }
    requires to_domain_len { length to_domain.old ≡ rows_size }
    ensures answers { table_answer result ≡ listed_from text.now (entries_of numbers.now n) }
    ensures text { IfOk result (λ t. t.text.now ≡ text.now) }
    ensures lists { IfOk result (λ t. InLists to_path.entry to_domain.entry t) }
{
    let loaded = load_entries(text, numbers, n, to_path, to_domain)?;
    Ok(Table {
        text,
        to_path,
        to_domain,
        loaded,
    })
}
