// A loaded table: the text that it was read from, the two lists of its rows, and how many rows go each way. It keeps the rules of "The table
// text".
ghost use Rattle.table.specs.Formed.{Formed};
ghost use Rattle.table.specs.Rows.{table_at};
ghost use Rattle.table_load.specs.Load.{Kept};
ghost use Rattle.table_load.specs.Props.{Formed-prop, Kept-prop};

use table::load::Loaded;

#[derive(Clone, Copy)]
pub struct Table<'a> {
    pub text: &'a [u8],
    pub to_path: &'a [usize],
    pub to_domain: &'a [usize],
    pub loaded: Loaded,
    pub ghost kept: { Kept text.now to_path.now to_domain.now loaded } by { Kept-prop text.now to_path.now to_domain.now loaded },
    pub ghost formed: { Formed (table_at text.now to_path.now to_domain.now loaded) } by { Formed-prop (table_at text.now to_path.now to_domain.now loaded) },
}
