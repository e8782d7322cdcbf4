// The router, for the public face: the next part of a run of lines, under a table text.
// `over, input, last, out` and what follows travel together as C has them.
#![tactic(auto)]

ghost use Rattle.table.specs.Lines.{loaded_from};
ghost use Rattle.router.specs.Run.{Routing};

use router::run::Routed;
use table::rows::ROWS_SIZE;
use table_load::read::loaded_table;

// Answers the lines of `input`, the next part of a run, in `out`, under a table text, which is loaded once for them all. `over` is false for
// the first part and then what the last call said; `last` says that no more will come. What was not taken is to be lent again, with more
// behind it.
pub fn route(table: &[u8], over: bool, input: &[u8], last: bool, out: &mut [u8]) -> Routed
    ensures { Routing (loaded_from table.now) over input.now last out.old result out.new }
{
    let mut to_path = [0usize; ROWS_SIZE];
    let mut to_domain = [0usize; ROWS_SIZE];
    let loaded = router::run::open(table, &mut to_path, &mut to_domain);
    let read = loaded_table(table, &to_path, &to_domain, loaded);
    router::run::route(&read, over, input, last, out)
}
