//! Checks that bytes are a field table without building it. Start at [`is_table`].

ghost use Rattle.std.specs.Prelude.{MatchBool, MatchOption};
ghost use Rattle.model.specs.Tables.{Value, IsTable};
ghost use Rattle.field_table.specs.Reading.{IsFirstValue, HasNone, IsFirstPair, HasNoPair, HasValues, HasPairs, HoldsValues};

use crate::leaves::{Leaf, leaf_at};
use crate::takes::short_text_at;

/// The most levels of arrays and tables that may be nested inside a table.
pub(crate) const DEPTH: usize = 15;

/// Returns whether `pairs` are the pairs of a field table, without the table's length in front. Never allocates.
pub fn is_table(pairs: &[u8]) -> bool
    ensures { MatchBool result (IsTable pairs.now) (IsTable pairs.now → ⊥) }
{
    if pairs.len() >= 0x1_0000_0000 {
        return false;
    }
    are_pairs(pairs, DEPTH)
}

/// Returns whether `bytes` are the pairs of a table with at most `depth` levels of arrays and tables inside.
#[cycle(check)]
fn are_pairs(bytes: &[u8], depth: usize) -> bool
    ensures { MatchBool result (HasPairs depth bytes.now) (HasPairs depth bytes.now → ⊥) }
{
    let mut rest = bytes;
    'pairs: while !rest.is_empty() {
        match pair_at(rest, depth) {
            Some((_, after)) => rest = after,
            None => return false,
        }
    }
    true
}

/// Returns the name of the pair at the front and the bytes after the pair, or `None` if no pair is there.
#[cycle(check)]
pub(crate) fn pair_at(bytes: &[u8], depth: usize) -> Option<(&[u8], &[u8])>
    ensures { MatchOption result (HasNoPair depth bytes.now) (λ found. (v : Value) × IsFirstPair depth bytes.now found.0.now v found.1.now) }
{
    let (name, rest) = short_text_at(bytes)?;
    let after = value_end(rest, depth)?;
    Some((name, after))
}

/// Returns whether `bytes` are the values of an array with at most `depth` levels of arrays and tables inside.
#[cycle(check)]
fn are_values(bytes: &[u8], depth: usize) -> bool
    ensures { MatchBool result (HasValues depth bytes.now) (HasValues depth bytes.now → ⊥) }
{
    let mut rest = bytes;
    'values: while !rest.is_empty() {
        match value_end(rest, depth) {
            Some(after) => rest = after,
            None => return false,
        }
    }
    true
}

/// Returns the bytes after the value at the front, or `None` if no value is there.
#[cycle(check)]
fn value_end(bytes: &[u8], depth: usize) -> Option<&[u8]>
    ensures { MatchOption result (HasNone depth bytes.now) (λ rest. (v : Value) × IsFirstValue depth bytes.now v rest.now) }
{
    let Some((leaf, rest)) = leaf_at(bytes) else {
        return None;
    };
    if is_sound(leaf, depth) {
        Some(rest)
    } else {
        None
    }
}

/// Returns whether an array's or table's content is well formed and at most `depth` levels deep, itself included; `true` for other leaves.
#[cycle(check)]
fn is_sound(leaf: Leaf<'_>, depth: usize) -> bool
    ensures { MatchBool result (HoldsValues depth leaf.entry) (HoldsValues depth leaf.entry → ⊥) }
{
    match leaf {
        Leaf::Array(values) => {
            if depth == 0 {
                return false;
            }
            are_values(values, depth - 1)
        }
        Leaf::Table(pairs) => {
            if depth == 0 {
                return false;
            }
            are_pairs(pairs, depth - 1)
        }
        _ => true,
    }
}
