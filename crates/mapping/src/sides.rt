// A loaded table as far as each mapping reads it: the gateway's row, and the rows of its direction.
ghost use Rattle.std.specs.Prelude.{◌≡◌, List, ℕ};
ghost use Rattle.oraddr.specs.Attributes.{Attributes};
ghost use Rattle.table.specs.Rows.{table_at};
ghost use Rattle.table_load.specs.Tables.{table_answer};
ghost use Rattle.mapping.specs.Answers.{inward, outward};
ghost use Rattle.mapping.specs.Sides.{KeptInward, KeptInward-prop, KeptOutward, KeptOutward-prop};
ghost use Rattle.mapping.specs.ToAddress.{address_of};
ghost use Rattle.mapping.specs.ToRecord.{to_record, to_record_by};

use table::load::{Loaded, Malformed};
use table_load::tables::Table;

// What address to record reads.
#[derive(Clone, Copy)]
pub struct Inward<'a> {
    pub text: &'a [u8],
    pub to_path: &'a [usize],
    pub loaded: Loaded,
    pub ghost kept: { KeptInward text.now to_path.now loaded } by { KeptInward-prop text.now to_path.now loaded },
}

// What record to address reads.
#[derive(Clone, Copy)]
pub struct Outward<'a> {
    pub text: &'a [u8],
    pub to_domain: &'a [usize],
    pub loaded: Loaded,
    pub ghost kept: { KeptOutward text.now to_domain.now loaded } by { KeptOutward-prop text.now to_domain.now loaded },
}

impl<'a> Inward<'a> {
    ghost use Rattle.mapping.specs.Read.{inward_answer};

    // An address comes to the same record under both.
    pub fn of(table: &Table<'a>) -> Inward<'a>
        ensures { (s : List ℕ) → to_record (inward result.text.now result.to_path.now result.loaded) s
            ≡ to_record (table_at table.now.text.now table.now.to_path.now table.now.to_domain.now table.now.loaded) s }
    {
        Inward {
            text: table.text,
            to_path: table.to_path,
            loaded: table.loaded,
        }
    }

    // The same of what a table was read as, with the line of one that is malformed.
    pub fn of_read(read: Result<Table<'a>, Malformed>) -> Result<Inward<'a>, Malformed>
        ensures { (s : List ℕ) → to_record_by (inward_answer result) s ≡ to_record_by (table_answer read.entry) s }
    {
        Ok(Inward::of(&read?))
    }
}

impl<'a> Outward<'a> {
    // A record has the same address under both.
    pub fn of(table: &Table<'a>) -> Outward<'a>
        ensures { (a : Attributes) → address_of (outward result.text.now result.to_domain.now result.loaded) a
            ≡ address_of (table_at table.now.text.now table.now.to_path.now table.now.to_domain.now table.now.loaded) a }
    {
        Outward {
            text: table.text,
            to_domain: table.to_domain,
            loaded: table.loaded,
        }
    }
}
