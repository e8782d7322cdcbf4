// Two keys compared rank by rank: paths from the left, domains from the right. A separator ranks below any other byte, so that a key
// comes before those that go on behind it, and letter case is aside.
// A bound on a place is asked where it is used: it ties two parameters of one call, and a struct of the two would be made for each.
ghost use Rattle.std.specs.Prelude.{◌≡◌, true, ◌&&◌, ◌≤◌, ◌<◌, get_or, length};
ghost use Rattle.std.specs.Ordering.{nat_cmp};
ghost use Rattle.table_order.specs.Order.{rank, read_by, separator, shared, spell_by};
ghost use Rattle.table_order.specs.Place.{Comparing, EqualUpTo, block_size};

use chars::case::fold_case;
use std::cmp::Ordering;
use table::rows::Key;

// How many bytes are compared at a time where they are likely to be equal.
const BLOCK_SIZE: usize = 16;

// How two keys compare: how many ranks they share, and whether the first is not over the second.
#[derive(Clone, Copy)]
pub struct Compared {
    pub shared: usize,
    pub under: bool,
}

// What parts a key's tokens.
pub fn separator_of(key: Key) -> u8
    ensures { result ≡ separator key }
{
    match key {
        Key::Domain => b'.',
        Key::Path => b'\t',
    }
}

// Byte i of a key, from the side that it is compared from.
pub fn byte_by(key: Key, s: &[u8], i: usize) -> u8
    requires { i < length s.now }
    ensures { result ≡ get_or (read_by key s.now) i 0 }
{
    match key {
        Key::Domain => s[s.len() - 1 - i],
        Key::Path => s[i],
    }
}

fn rank_of(sep: u8, b: u8) -> usize
    ensures { result ≡ rank sep b }
{
    if b == sep {
        return 0;
    }
    fold_case(b) as usize + 1
}

// How two bytes compare by rank. Equal bytes have one rank, which is asked first since most are equal.
fn compare_bytes(sep: u8, x: u8, y: u8) -> Ordering
    ensures { result ≡ nat_cmp (rank sep x) (rank sep y) }
{
    if x == y {
        return Ordering::Equal;
    }
    rank_of(sep, x).cmp(&rank_of(sep, y))
}

// Whether two blocks of bytes are equal. All are looked at, also behind one that differs: the loop then has no branch, and takes all of
// them at a time.
fn equal_block(a: &[u8], b: &[u8]) -> bool
    requires { (length a.now ≡ block_size) × (length b.now ≡ block_size) }
    ensures { result ≡ true → EqualUpTo a.now b.now 0 block_size block_size }
{
    let mut same = true;
    for i in 0..BLOCK_SIZE {
        same &= a[i] == b[i];
    }
    same
}

// How far two texts are equal from a place on, by whole blocks.
fn equal_blocks(a: &[u8], b: &[u8], from: usize, end: usize) -> usize
    requires { (from ≤ end) × (end ≤ length a.now) × (end ≤ length b.now) }
    ensures { EqualUpTo a.now b.now from end result }
{
    let mut i = from;
    // while: a block at a time, and the place of the first that differs is the answer
    while BLOCK_SIZE <= end - i {
        let next = i + BLOCK_SIZE;
        if !equal_block(&a[i..next], &b[i..next]) {
            return i;
        }
        i = next;
    }
    i
}

// How many ranks two keys share, so far as whole blocks of equal bytes tell. Paths are long, and much alike; domains are short.
fn pass_equal(key: Key, a: &[u8], b: &[u8], from: usize, end: usize) -> usize
    requires end_in_bounds { (end ≤ length a.now) × (end ≤ length b.now) }
    requires from_le_end { (from ≤ end) × (from ≤ shared (spell_by key a.now) (spell_by key b.now)) }
    ensures { (result ≤ end) × (result ≤ shared (spell_by key a.now) (spell_by key b.now)) }
{
    match key {
        Key::Domain => from,
        Key::Path => equal_blocks(a, b, from, end),
    }
}

// Two keys compared, the first `from` ranks of which are known to be shared.
pub fn compare(key: Key, a: &[u8], b: &[u8], from: usize) -> Compared
    requires { from ≤ shared (spell_by key a.now) (spell_by key b.now) }
    ensures { Comparing (spell_by key a.now) (spell_by key b.now) result }
{
    let sep = separator_of(key);
    let end = a.len().min(b.len());
    let start = pass_equal(key, a, b, from, end);
    for i in start..end {
        let x = byte_by(key, a, i);
        let y = byte_by(key, b, i);
        match compare_bytes(sep, x, y) {
            Ordering::Equal => {}
            Ordering::Less => {
                return Compared {
                    shared: i,
                    under: true,
                };
            }
            Ordering::Greater => {
                return Compared {
                    shared: i,
                    under: false,
                };
            }
        }
    }
    Compared {
        shared: end,
        under: a.len() <= b.len(),
    }
}
