// The levels of a path, read from the table text one at a time. A path is a region of the text, fields with a tab between each
// two.
// A path is handed on as its place in the table text, so that its end lies in the text is asked beside it.
ghost use Rattle.std.specs.Prelude.{◌≤◌, length};
ghost use Rattle.table_lookup.specs.Levels.{Levelled};

use chars::parts::part_end;

// A place in the table text.
#[derive(Clone, Copy)]
pub struct Span {
    pub start: usize,
    pub len: usize,
}

// "Each level of a row is named, omitted or not reached."
#[derive(Clone, Copy)]
pub enum LevelKind {
    Named(Span),
    Omitted,
    NotReached,
}

// A level of a path, and where the next one starts.
#[derive(Clone, Copy)]
pub struct Level {
    pub kind: LevelKind,
    pub next: usize,
}

// The level whose field starts at `at`, in a path that ends at `end`; past the last field no level is reached.
pub fn level_at(text: &[u8], at: usize, end: usize) -> Level
    requires { end ≤ length text.now }
    ensures { Levelled text.now at end result.next result.kind }
{
    if end < at {
        return Level {
            kind: LevelKind::NotReached,
            next: at,
        };
    }
    let stop = part_end(&text[..end], at, b'\t');
    if stop == at {
        return Level {
            kind: LevelKind::Omitted,
            next: stop + 1,
        };
    }
    Level {
        kind: LevelKind::Named(Span {
            start: at,
            len: stop - at,
        }),
        next: stop + 1,
    }
}
