// A record's eight levels, flattened into a buffer once, so that no record goes through the look-up.
// An attribute's number is bounded where it is used: it indexes the one table of bounds, and loops count over it.
// What is written goes to a place of a lent buffer, and where the next goes is told: `dst, at`, as in `put` of chars/src/write.rt.
ghost use Rattle.std.specs.Prelude.{◌≡◌, [], ◌+◌, ◌<◌, ◌≤◌, get_or, length};
ghost use Rattle.chars.specs.Write.{Wrote};
ghost use Rattle.oraddr.specs.Attributes.{levels};
ghost use Rattle.oraddr.specs.View.{view};
ghost use Rattle.mapping.specs.Flat.{Flat, ends_room};
ghost use Rattle.table_lookup.specs.Looked.{levels_room};
ghost use Rattle.oraddr.specs.Bounds.{level_count, bound_of, O};

use chars::write::put;
use oraddr::bounds::{LEVELS, VALUE_ROOM};
use oraddr::record::Record;

// Room for eight levels, each at most as long as the longest.
pub const LEVELS_ROOM: usize = LEVELS * VALUE_ROOM;

// Room for where the first begins, and where each ends.
pub const ENDS_ROOM: usize = LEVELS + 1;

// Writes level k.
fn put_level(dst: &mut [u8], at: usize, rec: Record, k: usize) -> usize
    requires k_lt_level_count { k < level_count }
    requires bound_of_in_bounds { at + bound_of O ≤ length dst.old }
    ensures wrote { Wrote dst.old at (get_or (levels (view rec)) k []) result dst.new }
    ensures short { length (get_or (levels (view rec)) k []) ≤ bound_of O }
{
    put(dst, at, rec.level(k).text())
}

// Writes the levels of a record to the front of `flat`, and where they end to `ends`.
pub fn flatten(rec: Record, flat: &mut [u8], ends: &mut [usize])
    requires flat_len { length flat.old ≡ levels_room }
    requires ends_len { length ends.old ≡ ends_room }
    ensures { Flat (levels (view rec)) flat.new ends.new }
{
    ends[0] = 0;
    let mut n = 0;
    for k in 0..LEVELS {
        n = put_level(flat, n, rec, k);
        ends[k + 1] = n;
    }
}
