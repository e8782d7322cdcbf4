// A lent list of row records, and its entries laid out as numbers, which the functions above read.
#![tactic(auto)]

ghost use Rattle.std.specs.Prelude.{◌≡◌, ◌<◌, ◌/◌, ◌*◌, ◌+◌, length, get_or, take};
ghost use Rattle.rowlist.specs.Entries.{entries_of, entry_size, laid, lesser, no_entry};

// An entry of a list of rows, as the C interface lends it.
#[repr(C)]
#[derive(Clone, Copy)]
pub struct RowEntry {
    pub kind: usize,
    pub domain: usize,
    pub domain_len: usize,
    pub path: usize,
    pub path_len: usize,
}

// How many numbers an entry is laid out as.
pub const ENTRY_SIZE: usize = 5;

// Room for the numbers of the gateway's entry, 512 rows, and one more, which is bad whatever it holds.
pub const LIST_ROOM: usize = 2570;

// Entry i, taken out of a lent list: a thin function of its own, over which the rest is plain code.
pub fn entry_at(rows: &[RowEntry], i: usize) -> RowEntry
    requires { i < length rows.now }
    ensures { result ≡ get_or rows.now i no_entry }
{
    rows[i]
}

// How many of so many entries there is room for, in so many numbers.
pub fn how_many(entries: usize, room: usize) -> usize
    ensures { result ≡ lesser entries (room / entry_size) }
{
    entries.min(room / ENTRY_SIZE)
}

// Entry i is laid out: its five numbers are stored.
pub fn put_entry(numbers: &mut [usize], i: usize, entry: RowEntry)
    requires { i * entry_size + 4 < length numbers.old }
    ensures { numbers.new ≡ laid numbers.old (i * entry_size) entry }
{
    let k = i * ENTRY_SIZE;
    numbers[k] = entry.kind;
    numbers[k + 1] = entry.domain;
    numbers[k + 2] = entry.domain_len;
    numbers[k + 3] = entry.path;
    numbers[k + 4] = entry.path_len;
}

// The entries of a list, five numbers each, as many as there is room for; how many.
pub fn spread(rows: &[RowEntry], numbers: &mut [usize]) -> usize
    ensures { (entries_of numbers.new result ≡ take result rows.now)
        × ((result ≡ lesser (length rows.now) (length numbers.old / entry_size))
        × (length numbers.new ≡ length numbers.old)) }
{
    let n = how_many(rows.len(), numbers.len());
    for i in 0..n {
        put_entry(numbers, i, entry_at(rows, i));
    }
    n
}
