// One run: an input that arrives in pieces of odd sizes, so that they end anywhere within a line or behind it, and a buffer with room for
// one answer of the greatest length and no more, so that a call may have to stop before all lines that have arrived are answered.
// The output's room is asked where it is used: it is a lent slice.
ghost use Rattle.std.specs.Prelude.{◌<◌, ◌≤◌, length};
ghost use Rattle.router_line.specs.Line.{answer_room};
ghost use Rattle.route_cases.specs.Feed.{Came};

use cases::print::{Output, say};
use gateway::entry::route;
use router_line::line::ANSWER_ROOM;

// How many bytes arrive at each turn, over and over: some are less than a line, and some are several; the greatest is below the limit of a
// line, so that one over it arrives in pieces as well.
const STEPS: [usize; 8] = [1, 7, 64, 2, 4095, 13, 3, 512];

// How far the answers have come, and whether the input goes on within a line that is over the limit.
#[derive(Clone, Copy)]
struct Place {
    over: bool,
    at: usize,
}

// How many bytes arrive at a turn.
fn step(turn: usize) -> usize
    ensures { (1 ≤ result) × (result ≤ 4095) }
{
    STEPS[turn % 8]
}

// How much of the input has arrived after a turn: a step more, or all of it.
fn arrived(input: &[u8], end: usize, turn: usize) -> usize
    requires { end < length input.now }
    ensures { (end < result) × (result ≤ length input.now) }
{
    let n = step(turn);
    if input.len() - end < n {
        return input.len();
    }
    end + n
}

// Answers all lines up to `end` that can be answered. What a call wrote is written out before it is seen whether the call took anything, so
// that answers to nothing would show.
fn answer(
    to: &mut Output,
    table: &[u8],
    input: &[u8],
    over: bool,
    at: usize,
    end: usize,
    out: &mut [u8],
) -> Place
    requires at_le_end { at ≤ end }
    requires end_in_bounds { end ≤ length input.now }
    requires answer_room_in_bounds { answer_room ≤ length out.old }
    ensures { Came input.now at end result.at }
{
    let last = end == input.len();
    let mut over = over;
    let mut at = at;

    // while: a turn goes on where the call before it stopped.
    while at < end {
        let done = route(table, over, &input[at..end], last, out);
        over = done.over;
        say(to, &out[..done.written]);
        if done.taken == 0 {
            return Place { over, at };
        }
        at += done.taken;
    }
    Place { over, at }
}

// Runs an input under a table text.
pub(crate) fn feed(to: &mut Output, table: &[u8], input: &[u8]) {
    let mut out = [0u8; ANSWER_ROOM];
    let mut over = false;
    let mut at = 0;
    let mut end = 0;
    let mut turn = 0;

    // while: as many turns as it takes until all has arrived.
    while end < input.len() {
        end = arrived(input, end, turn);
        let place = answer(to, table, input, over, at, end, &mut out);
        over = place.over;
        at = place.at;
        turn += 1;
    }
}
