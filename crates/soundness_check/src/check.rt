// The check of a table: all candidates of all rows are judged, and the first that does not come back is the witness.
// That a row is one of the table's is asked beside the two: it is read out of the table once, and judged by several.
ghost use Rattle.table.specs.Lines.{loaded_from};
ghost use Rattle.table_load.specs.Tables.{table_answer, table_of};
ghost use Rattle.soundness.specs.Check.{AllFirst, AllSecond, AllUnder, Demand3, FirstBack, told_check};
ghost use Rattle.soundness.specs.Sound.{Sound};
ghost use Rattle.soundness_judge.specs.Judge.{Judges, JudgesRow, RowOf};

use oraddr::record::Record;
use soundness::answers::CheckRefusal;
use soundness_fresh::fresh::level_span;
use soundness_judge::judge::{is_under, judge_fresh, judge_pair, judge_plain};
use table::line::Row;
use table::load::Malformed;
use table::rows::{ROWS_SIZE, row_at};
use table_load::read::read_table;
use table_load::tables::Table;
use table_settle::settle::count_levels;

// The first candidates of a row.
fn judge_row(table: &Table, row: Row) -> Result<(), Record>
    requires { RowOf table.now row }
    ensures { JudgesRow FirstBack table.now row result }
{
    let k = count_levels(table.text, row.path, row.path_end);
    if k == 2 {
        return judge_fresh(table, row, k);
    }
    judge_plain(table, row)?;
    if k == 3 && level_span(table.text, row.path, row.path_end, 2).len == 0 {
        return judge_fresh(table, row, k);
    }
    Ok(())
}

// The first candidates of all rows.
fn judge_rows(table: &Table) -> Result<(), Record>
    ensures { Judges AllFirst table.now result }
{
    for i in 0..table.loaded.to_domain {
        judge_row(table, row_at(table.to_domain, i))?;
    }
    Ok(())
}

// The second candidates of a row and the gateway, or a row to a path. Most do not lie under it, so nothing is made for them.
fn judge_under(table: &Table, row: Row) -> Result<(), Record>
    requires { RowOf table.now row }
    ensures { JudgesRow AllUnder table.now row result }
{
    let gateway = table.loaded.gateway;
    let domain = &table.text[gateway.domain..gateway.domain_end];
    judge_pair(table, row, domain)?;
    for i in 0..table.loaded.to_path {
        let target = row_at(table.to_path, i);
        let domain = &table.text[target.domain..target.domain_end];
        let lies_under = is_under(table.text, row, domain);
        if lies_under {
            judge_pair(table, row, domain)?;
        }
    }
    Ok(())
}

// The second candidates of all rows.
fn judge_pairs(table: &Table) -> Result<(), Record>
    ensures { Judges AllSecond table.now result }
{
    for i in 0..table.loaded.to_domain {
        judge_under(table, row_at(table.to_domain, i))?;
    }
    Ok(())
}

// The check of a table that was loaded. All first candidates come before any second one: then no two rows share a domain, and the pairs
// are few.
fn check_loaded(table: &Table) -> Result<(), Record>
    ensures { Judges Sound table.now result }
{
    judge_rows(table)?;
    judge_pairs(table)
}

// The check of what a table was read as.
pub fn check_under(read: &Result<Table, Malformed>) -> Result<(), CheckRefusal>
    ensures { Demand3 (table_answer read.now) (told_check result) }
{
    match read {
        Ok(table) => check_loaded(table).map_err(CheckRefusal::Unsound),
        Err(e) => Err(CheckRefusal::Malformed(e.line)),
    }
}

// The check of a table text.
pub fn check(table: &[u8]) -> Result<(), CheckRefusal>
    ensures { Demand3 (loaded_from table.now) (told_check result) }
{
    let mut to_path = [0usize; ROWS_SIZE];
    let mut to_domain = [0usize; ROWS_SIZE];
    check_under(&read_table(table, &mut to_path, &mut to_domain))
}
