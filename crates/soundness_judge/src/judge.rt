// The judgement on one candidate: both mappings are run on it, and if it does not come back it is the witness.
// That a record is canonical is asked beside it: most callers have proved it of what they made, and a type for it would be taken apart again by each reader.
// That a row is one of the table's is asked beside the two: it is read out of the table once, and judged by several.
ghost use Rattle.std.specs.Prelude.{◌≡◌, ◌≢◌, false, true, ◌≤◌, eqb, length};
ghost use Rattle.std.proofs.Math.Option.{some};
ghost use Rattle.mailaddr.specs.Domain.{is_domain};
ghost use Rattle.oraddr.specs.Canonical.{canonical_record};
ghost use Rattle.oraddr.specs.View.{empty_record, view};
ghost use Rattle.mapping.specs.ToAddress.{is_carrier};
ghost use Rattle.table_load.specs.Tables.{table_of};
ghost use Rattle.table.specs.Rows.{RowInside, row_at};
ghost use Rattle.soundness.specs.Check.{SecondBack};
ghost use Rattle.soundness.specs.Sound.{back_by, comes_back};
ghost use Rattle.soundness_judge.specs.Judge.{FreshBack, Judges, JudgesRow, PlainBack, RowOf, is_under};

use crate::candidate::{plain, with_surname, with_token};
use mailaddr::domain::count_parts;
use mapping::sides::Inward;
use mapping_to_address::to_address::{ADDRESS_ROOM, map_record};
use mapping_to_record::to_record::map_address;
use oraddr::record::Record;
use oraddr_same::same::same_record;
use soundness_fresh::fresh::{free_number, odd_label};
use table::line::Row;
use table_load::tables::Table;
use table_lookup::lookup::is_tail;
use table_settle::settle::settle_row;

// Whether an address is mapped back to the record.
fn is_back(table: &Table, s: &[u8], rec: Record) -> bool
    ensures { result ≡ back_by (table_of table.now) rec (some s.now) }
{
    match map_address(&Inward::of(table), s) {
        Ok(back) => same_record(back, rec),
        Err(_) => false,
    }
}

// Whether a record comes back.
fn comes_back(table: &Table, rec: Record) -> bool
    ensures { result ≡ comes_back (table_of table.now) rec }
{
    let mut out = [0u8; ADDRESS_ROOM];
    match map_record(table, rec, &mut out) {
        Ok(n) => is_back(table, &out[..n], rec),
        Err(_) => false,
    }
}

// The judgement on one candidate: if it does not come back, it is the witness.
fn judge(table: &Table, rec: Record) -> Result<(), Record>
    requires canonical { canonical_record rec ≡ true }
    requires free { is_carrier (table_of table.now) (view rec) ≡ false }
    ensures { Judges (λ t. comes_back t rec ≡ true) table.now result }
{
    if comes_back(table, rec) {
        Ok(())
    } else {
        Err(rec)
    }
}

// The levels of a row's path.
pub fn judge_plain(table: &Table, row: Row) -> Result<(), Record>
    requires { RowOf table.now row }
    ensures { JudgesRow PlainBack table.now row result }
{
    judge(table, plain(table.text, row))
}

// How much of a label stands behind k levels: all of it as PRMD, and without its `+` as O, which joins the domain.
fn label_size(k: usize) -> usize
    ensures whole { k ≡ 2 → result ≡ 4 }
    ensures part { k ≢ 2 → result ≡ 3 }
{
    if k == 2 { 4 } else { 3 }
}

// The same with a fresh token behind them, at level k: a domain part as PRMD's neighbour O, or none as PRMD.
pub fn judge_fresh(table: &Table, row: Row, k: usize) -> Result<(), Record>
    requires row_of { RowOf table.now row }
    requires k_value { k ≡ length (row_at table.now.text.now row).path }
    requires two_or_three { (2 ≤ k) × (k ≤ 3) }
    ensures { JudgesRow (FreshBack (eqb k 3)) table.now row result }
{
    let parts = count_parts(&table.text[row.domain..row.domain_end]);
    let label = odd_label(free_number(table, k, parts, row));
    let candidate = with_token(table.text, row, k, &label[..label_size(k)]);
    judge(table, candidate)
}

// Whether a domain lies under a row's: the row's is a tail of it by whole parts, and there is more in front.
pub fn is_under(text: &[u8], row: Row, domain: &[u8]) -> bool
    requires { RowInside text.now row }
    ensures { result ≡ is_under (row_at text.now row).domain domain.now }
{
    let (from, end) = (row.domain, row.domain_end);
    end - from < domain.len() && is_tail(text, from, end, domain)
}

// The second candidate of a row and a domain, which is none where the domain does not lie under the row's.
pub fn judge_pair(table: &Table, row: Row, domain: &[u8]) -> Result<(), Record>
    requires row_of { RowOf table.now row }
    requires domain_value { is_domain domain.now ≡ true }
    ensures { JudgesRow (λ t q. SecondBack t q domain.now) table.now row result }
{
    if !is_under(table.text, row, domain) {
        return Ok(());
    }
    match settle_row(table.text, row, domain) {
        Ok(settled) => judge(table, with_surname(settled.record)),
        Err(_) => Ok(()),
    }
}
