//! Looks for a field by its name in an encoded table.

ghost use Rattle.std.specs.Prelude.{MatchBool};
ghost use Rattle.field_table.specs.Lookups.{HasField};

use crate::checking::{DEPTH, pair_at};

/// Returns whether `pairs` are the pairs of a field table, without its length in front, and one of them is named `name`. Never allocates.
pub fn has_field(pairs: &[u8], name: &[u8]) -> bool
    ensures { MatchBool result (HasField name.now pairs.now) (HasField name.now pairs.now → ⊥) }
{
    if pairs.len() >= 0x1_0000_0000 {
        return false;
    }
    let mut rest = pairs;
    let mut is_found = false;
    'pairs: while !rest.is_empty() {
        let Some((other, after)) = pair_at(rest, DEPTH) else {
            return false;
        };
        is_found |= other == name;
        rest = after;
    }
    is_found
}
