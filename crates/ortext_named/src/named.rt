// What a record text names, as places in the text: at most one for each attribute that a record can have.
ghost use Rattle.std.specs.Prelude.{◌≡◌, ◌<◌, min, leb, ◌&&◌, not};
ghost use Rattle.oraddr.specs.Bounds.{own_levels};
ghost use Rattle.ortext_named.specs.Named.{is_absent, is_beside, nothing, take_found};

use oraddr::bounds::{G, GQ, I, MOST, OWN_LEVELS, S};
use ortext_segments::keys::{DD_KEY, OU_KEY, PN_KEY, UNKNOWN};
use ortext_segments::scan::{NO_SPAN, Segment, Span};

// The places of a DD's type and value.
#[derive(Clone, Copy)]
pub struct DdPlaces {
    pub kind: Span,
    pub value: Span,
}

// The places of what is named: under the keys that stand once, by their numbers (those of OU and DD stay empty); and the
// units and the DDs in the order of the text. `again`: a settled level is named. `bad`: a key is unknown or repeated, a value
// is empty, or a fifth unit or DD is named. (Two flags and no enum: both may hold, and what is read of a text asks for `again` first. The counts
// stand beside arrays: there is no heap.)
#[derive(Clone, Copy)]
pub struct Named {
    pub once: [Span; UNKNOWN],
    pub units: [Span; MOST],
    pub unit_count: usize,
    pub dds: [DdPlaces; MOST],
    pub dd_count: usize,
    pub again: bool,
    pub bad: bool,
}

// Whether a key is that of one of the first n levels, no unit.
fn is_settled(key: usize, n: usize) -> bool
    ensures { result ≡ not (leb (min n own_levels) key) }
{
    key < n.min(OWN_LEVELS)
}

// Whether what stands once can be taken: it is the first, and it is not empty.
fn is_free(there: Span, value: Span) -> bool
    ensures { result ≡ (is_absent there && not (is_absent value)) }
{
    there.len == 0 && value.len != 0
}

impl Named {
    pub fn nothing() -> Named
        ensures { result ≡ nothing }
    {
        Named {
            once: [NO_SPAN; UNKNOWN],
            units: [NO_SPAN; MOST],
            unit_count: 0,
            dds: [DdPlaces {
                kind: NO_SPAN,
                value: NO_SPAN,
            }; MOST],
            dd_count: 0,
            again: false,
            bad: false,
        }
    }

    // What is named when a further segment has been read, the first n levels being settled. All of it stands here, since each method in
    // between would copy `self`.
    #[tactic(auto, unfolding(crate::specs::Named::take_found, crate::specs::Named::with_found, crate::specs::Named::with_once, crate::specs::Named::with_unit, crate::specs::Named::with_dd))]
    pub fn with(mut self, f: Segment, n: usize) -> Named
        ensures { result ≡ take_found n self f }
    {
        let key = f.key;
        let value = f.value;
        if is_settled(key, n) {
            self.again = true;
            return self;
        }
        if key == OU_KEY {
            let count = self.unit_count;
            if MOST <= count {
                self.bad = true;
                return self;
            }
            self.units[count] = value;
            self.unit_count = count + 1;
            return self;
        }
        if key == DD_KEY {
            let count = self.dd_count;
            if MOST <= count {
                self.bad = true;
                return self;
            }
            let kind = f.kind;
            self.dds[count] = DdPlaces { kind, value };
            self.dd_count = count + 1;
            return self;
        }
        if key < UNKNOWN && is_free(self.once[key], value) {
            self.once[key] = value;
        } else {
            self.bad = true;
        }
        self
    }

    // Whether PN is named beside S, G, I or GQ.
    #[tactic(auto, unfolding(crate::specs::Named::is_beside))]
    pub fn is_beside(self) -> bool
        ensures { result ≡ is_beside self }
    {
        let once = &self.once;
        once[PN_KEY].len != 0
            && (once[S].len != 0 || once[G].len != 0 || once[I].len != 0 || once[GQ].len != 0)
    }
}
