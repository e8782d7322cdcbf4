// A record's levels, as the look-ups take them.
ghost use Rattle.std.specs.Prelude.{◌≡◌, ◌+◌, ◌<◌, get_or};
ghost use Rattle.oraddr.specs.Bounds.{level_count};
ghost use Rattle.table.specs.Rows.{between};
ghost use Rattle.table_lookup.specs.Looked.{Ended};
ghost use Rattle.table_lookup.specs.Props.{Ended-prop};

// The eight levels, one behind the other: level k is what stands from ends[k] to ends[k + 1], nothing where the record has none.
#[derive(Clone, Copy)]
pub struct Levels<'a> {
    pub bytes: &'a [u8],
    pub ends: &'a [usize],
    pub ghost ended: { Ended bytes.now ends.now level_count } by { Ended-prop bytes.now ends.now level_count },
}

impl<'a> Levels<'a> {
    pub fn level(&self, k: usize) -> &'a [u8]
        requires { k < level_count }
        ensures { result.now ≡ between self.now.bytes.now (get_or self.now.ends.now k 0) (get_or self.now.ends.now (k + 1) 0) }
    {
        let start = self.ends[k];
        let end = self.ends[k + 1];
        &self.bytes[start..end]
    }
}
