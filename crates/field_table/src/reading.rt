//! Decodes a field table into a [`crate::Table`].

ghost use Rattle.std.specs.Prelude.{◌≡◌, ◌+◌};
ghost use Rattle.model.specs.Tables.{Pairs, no_values};
ghost use Rattle.field_table.specs.View.{table_view, fields_view, field_view, values_then};
ghost use Rattle.field_table.specs.Reading.{IsFirstValue, HasNone, IsFirstPair, HasNoPair, SpellsValues, SpellsPairs, HasValues, HasPairs, HoldsValues, Means};
ghost use Rattle.field_table.specs.Answers.{AnswersOr, SpellsTable, IsOr};

use crate::checking::DEPTH;
use crate::fields::{Field, FieldTable, TableEntry};
use crate::leaves::{Leaf, leaf_at};
use crate::refusals::BadTable;
use crate::takes::{long_text_at, short_text_at};
use model::Text;
use std::alloc::Global;

/// Decodes all of `bytes` as one field table, its length (4 bytes) included.
///
/// Returns [`BadTable::SyntaxError`] if bytes are left over, a length isn't filled exactly, a type letter or a truth octet
/// is unknown, or tables and arrays are nested more than 16 levels deep; [`BadTable::Memory`] if an allocation fails.
pub fn read_table(alloc: Global, bytes: &[u8]) -> Result<FieldTable, BadTable>
    ensures read { AnswersOr result (λ t. SpellsTable bytes.now (table_view t)) ((ps : Pairs) → SpellsTable bytes.now ps → ⊥) }
    // Promise: a table that `bytes` encode is returned, unless an allocation fails.
    ensures only { (ps : Pairs) → SpellsTable bytes.now ps → IsOr result (λ t. table_view t ≡ ps) }
{
    let (pairs, rest) = long_text_at(bytes).ok_or(BadTable::SyntaxError)?;
    if !rest.is_empty() {
        return Err(BadTable::SyntaxError);
    }
    table_in(alloc, pairs, DEPTH)
}

/// Decodes a table's pairs, with at most `depth` levels of arrays and tables inside.
#[cycle(read)]
fn table_in(alloc: Global, bytes: &[u8], depth: usize) -> Result<FieldTable, BadTable>
    ensures { AnswersOr result (λ t. SpellsPairs depth bytes.now (table_view t)) (HasPairs depth bytes.now → ⊥) }
{
    let mut entries = Vec::new(alloc);
    let mut rest = bytes;
    'pairs: while !rest.is_empty() {
        let (entry, after) = entry_at(alloc, rest, depth)?;
        entries.push(entry)?;
        rest = after;
    }
    Ok(FieldTable { entries })
}

/// Decodes the pair at the front, and returns it with the bytes after it.
#[cycle(read)]
fn entry_at(alloc: Global, bytes: &[u8], depth: usize) -> Result<(TableEntry, &[u8]), BadTable>
    ensures { AnswersOr result (λ x. IsFirstPair depth bytes.now x.0.name (field_view x.0.value) x.1.now) (HasNoPair depth bytes.now) }
{
    let Some((name, rest)) = short_text_at(bytes) else {
        return Err(BadTable::SyntaxError);
    };
    let name = Text::from_slice(alloc, name)?;
    match field_at(alloc, rest, depth) {
        Ok((value, rest)) => Ok((TableEntry { name, value }, rest)),
        Err(why) => Err(why),
    }
}

/// Decodes an array's values, with at most `depth` levels of arrays and tables inside.
#[cycle(read)]
fn values_in(alloc: Global, bytes: &[u8], depth: usize) -> Result<Vec<Field>, BadTable>
    ensures { AnswersOr result (λ v. SpellsValues depth bytes.now (values_then (fields_view v.items) no_values)) (HasValues depth bytes.now → ⊥) }
{
    let mut values = Vec::new(alloc);
    let mut rest = bytes;
    'values: while !rest.is_empty() {
        let (value, after) = field_at(alloc, rest, depth)?;
        values.push(value)?;
        rest = after;
    }
    Ok(values)
}

/// Decodes the value at the front, and returns it with the bytes after it.
#[cycle(read)]
fn field_at(alloc: Global, bytes: &[u8], depth: usize) -> Result<(Field, &[u8]), BadTable>
    ensures { AnswersOr result (λ x. IsFirstValue depth bytes.now (field_view x.0) x.1.now) (HasNone depth bytes.now) }
{
    let Some((leaf, rest)) = leaf_at(bytes) else {
        return Err(BadTable::SyntaxError);
    };
    match field_of(alloc, leaf, depth) {
        Ok(field) => Ok((field, rest)),
        Err(why) => Err(why),
    }
}

/// Builds the value of `leaf`, decoding the content of an array or table.
#[cycle(read)]
fn field_of(alloc: Global, leaf: Leaf<'_>, depth: usize) -> Result<Field, BadTable>
    ensures { AnswersOr result (λ f. Means depth leaf.entry (field_view f)) (HoldsValues depth leaf.entry → ⊥) }
{
    match leaf {
        Leaf::Truth(truth) => Ok(Field::Truth(truth)),
        Leaf::Byte(number) => Ok(Field::Byte(number)),
        Leaf::Short(number) => Ok(Field::Short(number)),
        Leaf::Long(number) => Ok(Field::Long(number)),
        Leaf::LongLong(number) => Ok(Field::LongLong(number)),
        Leaf::Float(bits) => Ok(Field::Float(bits)),
        Leaf::Double(bits) => Ok(Field::Double(bits)),
        Leaf::Decimal(scale, digits) => Ok(Field::Decimal { scale, digits }),
        Leaf::Text(text) => Ok(Field::Text(Text::from_slice(alloc, text)?)),
        Leaf::Array(values) => Ok(Field::Array(values_in(alloc, values, less(depth)?)?)),
        Leaf::Timestamp(seconds) => Ok(Field::Timestamp(seconds)),
        Leaf::Table(pairs) => Ok(Field::Table(table_in(alloc, pairs, less(depth)?)?)),
        Leaf::Bytes(data) => Ok(Field::Bytes(Text::from_slice(alloc, data)?)),
        Leaf::Void => Ok(Field::Void),
    }
}

/// Returns `depth - 1`, or a syntax error for 0.
fn less(depth: usize) -> Result<usize, BadTable>
    ensures { AnswersOr result (λ n. n + 1 ≡ depth) (depth ≡ 0) }
{
    if depth == 0 {
        return Err(BadTable::SyntaxError);
    }
    Ok(depth - 1)
}
