// A table text read into a table that keeps its text and the two lent lists, at once or in two steps.
// The two lists are lent, ROWS_SIZE long, which is asked: an array in the type would ask more of a caller that has slices.
ghost use Rattle.std.specs.Prelude.{◌≡◌, IfOk, length};
ghost use Rattle.table.specs.Lines.{loaded_from};
ghost use Rattle.table.specs.Rows.{rows_size};
ghost use Rattle.table_load.specs.Load.{Ready};
ghost use Rattle.table_load.specs.Tables.{InLists, Tabled, table_answer};

use crate::load::load;
use crate::tables::Table;
use table::load::{Malformed, TableRead};

// Reads a table text. The rows go to the two lent lists, each of which has room for all, and stay there with the table.
pub fn read_table<'a>(
    text: &'a [u8],
    to_path: &'a mut [usize],
    to_domain: &'a mut [usize],
) -> Result<Table<'a>, Malformed>
    requires to_path_len { length to_path.old ≡ rows_size }
    requires to_domain_len { length to_domain.old ≡ rows_size }
    ensures answers { table_answer result ≡ loaded_from text.now }
    ensures text { IfOk result (λ t. t.text.now ≡ text.now) }
    ensures lists { IfOk result (λ t. InLists to_path.entry to_domain.entry t) }
{
    let loaded = load(text, to_path, to_domain)?;
    Ok(Table {
        text,
        to_path,
        to_domain,
        loaded,
    })
}

// The table of what was loaded from a text, with this text and the two lists that its rows went to: for who lends the lists for writing no
// longer than the loading takes, and knows what they hold.
pub fn loaded_table<'a>(
    text: &'a [u8],
    to_path: &'a [usize],
    to_domain: &'a [usize],
    read: TableRead,
) -> Result<Table<'a>, Malformed>
    requires { Ready text.now to_path.now to_domain.now read }
    ensures { Tabled text.entry to_path.entry to_domain.entry read result }
{
    let loaded = read?;
    Ok(Table {
        text,
        to_path,
        to_domain,
        loaded,
    })
}
