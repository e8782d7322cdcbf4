// "Record to address": how far a record's later levels go in front of a row's domain.
ghost use Rattle.std.specs.Prelude.{◌≡◌, ◌≤◌, drop, length};
ghost use Rattle.table_lookup.specs.Lookup.{extension};
ghost use Rattle.table_lookup.specs.Tokens.{tokens_of};
ghost use Rattle.oraddr.specs.Bounds.{level_count};

use crate::levels::Levels;
use chars::parts::is_domain_part;
use oraddr::bounds::LEVELS;

// How many levels from k on are domain parts one after the other.
pub fn count_extension(levels: &Levels, k: usize) -> usize
    requires { k ≤ level_count }
    ensures { result ≡ length (extension (drop k (tokens_of levels.now))) }
{
    for i in k..LEVELS {
        if !is_domain_part(levels.level(i)) {
            return i - k;
        }
    }
    LEVELS - k
}
