// The entries of a list, read from their lines and laid out as numbers.
ghost use Rattle.std.specs.Prelude.{◌*◌, ◌≤◌, length};
ghost use Rattle.rowlist.specs.Entries.{entry_size};

use cases::lines::{line, next_line};
use cases::parts::rest;
use chars::parts::part_end;
use rowlist::{RowEntry, how_many, put_entry};

// How many entries were laid out, and where the line behind them starts.
#[derive(Clone, Copy)]
pub(crate) struct Entries {
    pub(crate) count: usize,
    pub(crate) next: usize,
}

// A number with one more digit. The cases have numbers up to the largest there is, so a digit that would lead past it is left out.
fn with_digit(n: usize, b: u8) -> usize
    requires { 48 ≤ b }
{
    let digit = (b - b'0') as usize;
    if (usize::MAX - digit) / 10 < n {
        return n;
    }
    n * 10 + digit
}

// The number at the front of a text, up to a byte below the digits, such as the space behind it.
fn decimal(s: &[u8]) -> usize {
    let mut n = 0;
    for b in s {
        if *b < b'0' {
            return n;
        }
        n = with_digit(n, *b);
    }
    n
}

// What stands behind the first space.
fn behind(s: &[u8]) -> &[u8] {
    rest(s, part_end(s, 0, b' ') + 1)
}

// The entry that five numbers spell.
fn entry(s: &[u8]) -> RowEntry {
    let domain = behind(s);
    let domain_len = behind(domain);
    let path = behind(domain_len);
    let path_len = behind(path);
    RowEntry {
        kind: decimal(s),
        domain: decimal(domain),
        domain_len: decimal(domain_len),
        path: decimal(path),
        path_len: decimal(path_len),
    }
}

// Lays an entry out behind n of them, and returns how many there are then. One that there is no room for is dropped, as `rowlist::spread`
// drops it.
fn add_entry(numbers: &mut [usize], n: usize, entry: RowEntry) -> usize
    requires { n * entry_size ≤ length numbers.old }
    ensures { result * entry_size ≤ length numbers.new }
{
    let next = how_many(n + 1, numbers.len());
    if n < next {
        put_entry(numbers, n, entry);
    }
    next
}

// Lays out the entries from `at` on, up to the line that loads them.
pub(crate) fn read_entries(s: &[u8], at: usize, numbers: &mut [usize]) -> Entries
    ensures { (at ≤ result.next) × (result.count * entry_size ≤ length numbers.new) }
{
    let mut n = 0;
    let mut from = at;
    // while: the place behind the entries is handed back, which lines_of does not tell
    while from < s.len() {
        if s[from] != b'E' {
            return Entries {
                count: n,
                next: next_line(s, from),
            };
        }
        n = add_entry(numbers, n, entry(rest(line(s, from), 2)));
        from = next_line(s, from);
    }
    Entries {
        count: n,
        next: from,
    }
}
