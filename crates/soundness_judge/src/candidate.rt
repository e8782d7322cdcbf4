// Candidates: the records whose coming back decides about all others. Each has the surname Lee, so none is a carrier.
// A row is places without its text, since it stands by value in a loaded table: that it lies in the text is asked beside it.
ghost use Rattle.std.specs.Prelude.{◌≡◌, [], ◌∷◌, ◌++◌, length};
ghost use Rattle.oraddr.specs.View.{empty_record};
ghost use Rattle.table.specs.Rows.{RowInside, row_at};
ghost use Rattle.table_settle.specs.Settle.{add_levels, begun};
ghost use Rattle.soundness.specs.Check.{candidate_of, with_surname};

use oraddr::bounds::S;
use oraddr::record::Record;
use table::line::Row;
use table_settle::settle::{add_level, add_path};

// A record with a surname.
pub fn with_surname(rec: Record) -> Record
    ensures { result ≡ with_surname rec }
{
    rec.with_single(S, b"Lee").record
}

// The levels of a row's path.
pub fn plain(text: &[u8], row: Row) -> Record
    requires { RowInside text.now row }
    ensures { result ≡ candidate_of (row_at text.now row).path }
{
    with_surname(add_path(text, row.path, row.path_end).record)
}

// The same with a token behind them, at level k.
pub fn with_token(text: &[u8], row: Row, k: usize, token: &[u8]) -> Record
    requires row_inside { RowInside text.now row }
    requires k_value { k ≡ length (row_at text.now row).path }
    requires path_fits { (add_levels 0 (row_at text.now row).path (begun empty_record)).number ≡ 0 }
    ensures { result ≡ candidate_of ((row_at text.now row).path ++ token.now ∷ []) }
{
    let path = add_path(text, row.path, row.path_end).record;
    with_surname(add_level(path, k, token).record)
}
