// The program of document 01, "The program `orroute`": reads `table.tsv` and standard input, and writes an answer for each line. What is
// answered is the router's; this program moves bytes.
// The output's room is asked where it is used: it is a lent slice.
#![tactic(auto)]

mod files;

ghost use Rattle.std.specs.Prelude.{◌≡◌, IfOk, ◌+◌, ◌-◌, ◌<◌, ◌≤◌, length, take, drop};
ghost use Rattle.std.proofs.Math.Seq.{paste};
ghost use Rattle.table_load.specs.Tables.{table_answer};
ghost use Rattle.router_line.specs.Line.{answer_room, longest_line};
ghost use Rattle.orroute.specs.Run.{Advancing, Answering, Stepping};

use files::{read_some, read_table, write_out};
use router::run::{Routed, open, route};
use std::fmt;
use std::fmt::{Display, Formatter};
use std::io::{Error, Stderr, Stdin, Stdout, Write};
use table::load::Malformed;
use table::rows::ROWS_SIZE;
use table_load::read::loaded_table;
use table_load::tables::Table;

// A table of as many bytes as one may have, and one more, so that a longer one is seen to be.
const TABLE_ROOM: usize = 65537;

// What is read and written at a time; any number from that of one line, and of one answer, would do. The output has room to spare for the
// answers to a full input: near its end an answer is put together apart.
const INPUT_ROOM: usize = 65536;

const OUTPUT_ROOM: usize = 262144;

// The standard streams.
#[derive(Clone, Copy)]
struct Streams {
    input: Stdin,
    output: Stdout,
    error: Stderr,
}

// What waits at the front of the input buffer: how many bytes, and whether they begin within a line over the limit. `ended` says that nothing
// more will come: then nothing waits.
#[derive(Clone, Copy)]
struct Waiting {
    over: bool,
    size: usize,
    ended: bool,
}

// The end of a run because a read or a write failed. What was left of the input is not answered, since it may be a part of a line.
#[derive(Clone, Copy)]
enum Failure {
    Input(Error),
    Output(Error),
}

impl Display for Failure {
    fn fmt<W: fmt::Write>(&self, f: &mut Formatter<W>) -> fmt::Result {
        match self {
            Failure::Input(e) => write!(f, "standard input: {e}"),
            Failure::Output(e) => write!(f, "standard output: {e}"),
        }
    }
}

// Moves the n bytes from `from` on to the front. (The library has no `copy_within`.)
fn shift(buf: &mut [u8], from: usize, n: usize)
    requires { from + n ≤ length buf.old }
    ensures { buf.new ≡ paste buf.old 0 (drop from buf.old) n }
{
    for i in 0..n {
        buf[i] = buf[from + i];
    }
}

// Calls the router once on the first `size` bytes, and moves those that it left to the front.
fn advance(
    read: &Result<Table, Malformed>,
    input: &mut [u8],
    over: bool,
    size: usize,
    last: bool,
    out: &mut [u8],
) -> Routed
    requires size_in_bounds { size ≤ length input.old }
    requires answer_room_in_bounds { answer_room ≤ length out.old }
    ensures { Advancing (table_answer read.now) over
        (take size input.old) last result (take (size - result.taken) input.new) out.new }
{
    let done = route(read, over, &input[..size], last, out);
    let taken = done.taken;
    shift(input, taken, size - taken);
    done
}

// Answers all lines of the first `size` bytes that can be answered, and leaves the rest at the front: no more than a line may have.
fn answer(
    streams: Streams,
    read: &Result<Table, Malformed>,
    input: &mut [u8],
    over: bool,
    size: usize,
    last: bool,
    out: &mut [u8],
) -> Result<Waiting, Failure>
    requires size_in_bounds { size ≤ length input.old }
    requires answer_room_in_bounds { answer_room ≤ length out.old }
    ensures { IfOk result (λ w. Answering (table_answer read.now) over
        (take size input.old) last w (take w.size input.new)) }
{
    let mut output = streams.output;
    let mut over = over;
    let mut size = size;
    // loop: a turn takes as many lines as the output has room for, until none is taken
    loop {
        let done = advance(read, input, over, size, last, out);
        write_out(&mut output, &out[..done.written]).map_err(Failure::Output)?;
        over = done.over;
        size -= done.taken;
        if done.taken == 0 {
            return Ok(Waiting {
                over,
                size,
                ended: last,
            });
        }
    }
}

// Reads once behind what waits, and answers what can be. The buffer has room behind it, so that a read of nothing is the end.
fn step(
    streams: Streams,
    read: &Result<Table, Malformed>,
    input: &mut [u8],
    left: Waiting,
    out: &mut [u8],
) -> Result<Waiting, Failure>
    requires size_le_longest_line { left.size ≤ longest_line }
    requires longest_line_in_bounds { longest_line < length input.old }
    requires answer_room_in_bounds { answer_room ≤ length out.old }
    ensures { IfOk result (λ w. Stepping (table_answer read.now) left.over
        (take left.size input.old) w (take w.size input.new)) }
{
    let size = left.size;
    let mut from = streams.input;
    let n = read_some(&mut from, &mut input[size..]).map_err(Failure::Input)?;
    answer(streams, read, input, left.over, size + n, n == 0, out)
}

// Reads and answers until the input ends. A proved loop has to end as well, so it counts as far as no run comes.
fn run(streams: Streams, read: &Result<Table, Malformed>) -> Result<(), Failure> {
    let mut input = [0u8; INPUT_ROOM];
    let mut out = [0u8; OUTPUT_ROOM];
    let mut left = Waiting {
        over: false,
        size: 0,
        ended: false,
    };
    for _ in 0..u64::MAX {
        left = step(streams, read, &mut input, left, &mut out)?;
        if left.ended {
            return Ok(());
        }
    }
    Ok(())
}

// Loads a table text, once, and answers standard input under it. Says what failed, and why; if that fails as well, nobody is left to tell.
fn answer_under(streams: Streams, text: &[u8]) {
    let mut to_path = [0usize; ROWS_SIZE];
    let mut to_domain = [0usize; ROWS_SIZE];
    let loaded = open(text, &mut to_path, &mut to_domain);
    let read = loaded_table(text, &to_path, &to_domain, loaded);
    if let Err(failure) = run(streams, &read) {
        let mut error = streams.error;
        let _ = writeln!(error, "{failure}");
    }
}

fn main(rt: HostRuntime) {
    let mut table = [0u8; TABLE_ROOM];
    let n = read_table(&rt, &mut table);
    let streams = Streams {
        input: rt.stdin(),
        output: rt.stdout(),
        error: rt.stderr(),
    };
    answer_under(streams, &table[..n]);
}
