//! Computes encoded lengths, and finds out whether a value can be encoded at all.

ghost use Rattle.std.specs.Prelude.{◌≡◌, ◌<◌, ◌≤◌, ◌+◌, ◌^◌, ◌∷◌, ◌++◌, MatchOption, IfSome};
ghost use Rattle.model.specs.Tables.{letter, content, values_bytes, pairs_bytes, IsValue};
ghost use Rattle.field_table.specs.View.{field_view, entry_view, array_view, pairs_view};
ghost use Rattle.field_table.specs.Writing.{AreValuesWithin, ArePairsWithin, GivesLength, IsEntry, entry_bytes};

use crate::fields::{Field, TableEntry};

/// The first length that 4 bytes cannot hold.
const LIMIT: usize = 0x1_0000_0000;

/// Returns the encoded length in bytes of a table's pairs, or `None` if they can't be encoded with at most `depth` levels inside.
#[cycle(measure)]
pub(crate) fn pairs_len(entries: &[TableEntry], depth: usize) -> Option<usize>
    ensures cases { GivesLength (ArePairsWithin depth (pairs_view entries.now)) (pairs_bytes (pairs_view entries.now)) result }
    ensures bound { IfSome result (λ n. n < 2 ^ 32) }
{
    let mut len = 0;
    'pairs: for entry in entries {
        len += entry_len(entry, depth)?;
        if len >= LIMIT {
            return None;
        }
    }
    Some(len)
}

/// Returns the encoded length in bytes of a name with its value, or `None` if they can't be encoded.
#[cycle(measure)]
fn entry_len(entry: &TableEntry, depth: usize) -> Option<usize>
    ensures cases { GivesLength (IsEntry depth (entry_view entry.now)) (entry_bytes (entry_view entry.now)) result }
    ensures bound { IfSome result (λ n. n < 2 ^ 34) }
{
    let name = entry.name.len();
    if name >= 256 {
        return None;
    }
    let value = field_len(&entry.value, depth)?;
    Some(1 + name + value)
}

/// Returns the encoded length in bytes of an array's values, or `None` if they can't be encoded with at most `depth` levels inside.
#[cycle(measure)]
pub(crate) fn values_len(values: &[Field], depth: usize) -> Option<usize>
    ensures cases { GivesLength (AreValuesWithin depth (array_view values.now)) (values_bytes (array_view values.now)) result }
    ensures bound { IfSome result (λ n. n < 2 ^ 32) }
{
    let mut len = 0;
    'values: for value in values {
        len += field_len(value, depth)?;
        if len >= LIMIT {
            return None;
        }
    }
    Some(len)
}

/// Returns the encoded length in bytes of a value with its type letter, or `None` if it can't be encoded.
#[cycle(measure)]
fn field_len(field: &Field, depth: usize) -> Option<usize>
    ensures cases { GivesLength (IsValue depth (field_view field.now)) (letter (field_view field.now) ∷ content (field_view field.now)) result }
    ensures bound { IfSome result (λ n. n < 2 ^ 33) }
{
    match field {
        Field::Truth(_) => Some(2),
        Field::Byte(n) => {
            let _n = *n;
            Some(2)
        }
        Field::Short(n) => {
            let _n = *n;
            Some(3)
        }
        Field::Long(n) => {
            let _n = *n;
            Some(5)
        }
        Field::LongLong(n) => {
            let _n = *n;
            Some(9)
        }
        Field::Float(n) => {
            let _n = *n;
            Some(5)
        }
        Field::Double(n) => {
            let _n = *n;
            Some(9)
        }
        Field::Decimal { scale, digits } => {
            let _scale = *scale;
            let _digits = *digits;
            Some(6)
        }
        Field::Text(t) => text_len(t.len()),
        Field::Array(values) => Some(5 + values_len(values, less(depth)?)?),
        Field::Timestamp(n) => {
            let _n = *n;
            Some(9)
        }
        Field::Table(table) => Some(5 + pairs_len(&table.entries, less(depth)?)?),
        Field::Bytes(t) => text_len(t.len()),
        Field::Void => Some(1),
    }
}

/// Returns the encoded length of a text of `len` bytes with its letter and length, or `None` if 4 bytes don't hold the length.
fn text_len(len: usize) -> Option<usize>
    ensures { MatchOption result (2 ^ 32 ≤ len) (λ n. (len < 2 ^ 32) × (n ≡ 5 + len)) }
{
    if len >= LIMIT {
        return None;
    }
    Some(5 + len)
}

/// Returns `depth - 1`, or `None` for 0.
fn less(depth: usize) -> Option<usize>
    ensures { MatchOption result (depth ≡ 0) (λ n. n + 1 ≡ depth) }
{
    if depth == 0 {
        return None;
    }
    Some(depth - 1)
}
