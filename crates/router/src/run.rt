// A run of lines, in chunks as they arrive.
// The two lists are lent, ROWS_SIZE long, which is asked: an array in the type would ask more of a caller that has slices.
// `over, input, last, out` and what follows travel together as C has them.
ghost use Rattle.std.specs.Prelude.{◌≡◌, false, ◌<◌, ◌≤◌, ltb, length, drop};
ghost use Rattle.chars.specs.Parts.{run};
ghost use Rattle.table_load.specs.Tables.{table_answer};
ghost use Rattle.table.specs.Rows.{rows_size};
ghost use Rattle.router_line.specs.Line.{longest_line};
ghost use Rattle.router.specs.Run.{Opened, Routing, RoutingFrom, RoutingRest};

use chars::parts::part_end;
use router_line::line::{LONGEST_LINE, place_answer};
use table::load::{Malformed, TableRead};
use table_load::load::load;
use table_load::tables::Table;

// How far a call came in its input, and how much it wrote. `over` says that the input goes on within a line that is over the limit and has
// been answered.
#[derive(Clone, Copy)]
pub struct Routed {
    pub over: bool,
    pub taken: usize,
    pub written: usize,
}

// Loads a table text for a run of lines. The rows go to the two lent lists, and a `Table` is made of what was loaded when they are lent no
// more: of lists that it holds on to, no contract could say what they hold afterwards.
pub fn open(text: &[u8], to_path: &mut [usize], to_domain: &mut [usize]) -> TableRead
    requires to_path_len { length to_path.old ≡ rows_size }
    requires to_domain_len { length to_domain.old ≡ rows_size }
    ensures { Opened text.now result to_path.new to_domain.new }
{
    load(text, to_path, to_domain)
}

// The rest of the input from `at` on, which has no LF and is a line all the same: it is over the limit, or nothing more comes.
fn answer_rest(
    read: &Result<Table, Malformed>,
    input: &[u8],
    at: usize,
    over: bool,
    out: &mut [u8],
    written: usize,
) -> Routed
    requires at_in_bounds { at < length input.now }
    requires input_value { run 10 (drop at input.now) ≡ length (drop at input.now) }
    requires written_in_bounds { written ≤ length out.old }
    requires over_value { over ≡ ltb longest_line (length (drop at input.now)) }
    ensures { RoutingRest (table_answer read.now)
        input.now at over written out.old result out.new }
{
    match place_answer(read, &input[at..], out, written) {
        Some(n) => Routed {
            over,
            taken: input.len(),
            written: n,
        },
        None => Routed {
            over: false,
            taken: at,
            written,
        },
    }
}

// The rest of the input from `at` on, which has no LF: a line, or the start of one.
fn route_rest(
    read: &Result<Table, Malformed>,
    input: &[u8],
    at: usize,
    last: bool,
    out: &mut [u8],
    written: usize,
) -> Routed
    requires at_in_bounds { at < length input.now }
    requires input_value { run 10 (drop at input.now) ≡ length (drop at input.now) }
    requires written_in_bounds { written ≤ length out.old }
    ensures { RoutingFrom (table_answer read.now) false
        (drop at input.now) input.now last written out.old result out.new }
{
    let over = LONGEST_LINE < input.len() - at;
    if over || last {
        return answer_rest(read, input, at, over, out, written);
    }
    Routed {
        over: false,
        taken: at,
        written,
    }
}

// The lines from `from` on, where one begins.
fn route_from(
    read: &Result<Table, Malformed>,
    input: &[u8],
    from: usize,
    last: bool,
    out: &mut [u8],
) -> Routed
    requires { from ≤ length input.now }
    ensures { RoutingFrom (table_answer read.now) false
        (drop from input.now) input.now last 0 out.old result out.new }
{
    let mut at = from;
    let mut written = 0;

    // while: a turn goes on behind its LF, and what was answered is told by places.
    while at < input.len() {
        let end = part_end(input, at, b'\n');
        if end == input.len() {
            return route_rest(read, input, at, last, out, written);
        }
        let line = &input[at..end];
        let Some(n) = place_answer(read, line, out, written) else {
            return Routed {
                over: false,
                taken: at,
                written,
            };
        };
        written = n;
        at = end + 1;
    }
    Routed {
        over: false,
        taken: at,
        written,
    }
}

// Answers the lines of `input`, the next part of a run, in `out`. `last` says that no more will come. What was not taken is to be lent
// again, with more behind it.
pub fn route(
    read: &Result<Table, Malformed>,
    over: bool,
    input: &[u8],
    last: bool,
    out: &mut [u8],
) -> Routed
    ensures { Routing (table_answer read.now) over
        input.now last out.old result out.new }
{
    if !over {
        return route_from(read, input, 0, last, out);
    }
    let end = part_end(input, 0, b'\n');
    if end == input.len() {
        return Routed {
            over: true,
            taken: end,
            written: 0,
        };
    }
    route_from(read, input, end + 1, last, out)
}
