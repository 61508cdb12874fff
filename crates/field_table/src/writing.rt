//! Encodes a field table: measured first, so that the output grows once.

ghost use Rattle.std.specs.Prelude.{◌≡◌, ◌<◌, ◌≤◌, ◌+◌, ◌-◌, ◌^◌, [], ◌∷◌, ◌++◌, length, vec_len, vec_capacity, OnOk, IfErr, IfSome, IsSome, Err};
ghost use Rattle.std.specs.Int.{w32, to_be_bytes};
ghost use Rattle.model.specs.Tables.{letter, content, with_length, values_bytes, pairs_bytes, table_bytes, HavePairsSpelling, IsValue};
ghost use Rattle.field_table.specs.declared.refusals.BadTable.TheVariants.{Memory};
ghost use Rattle.field_table.specs.View.{field_view, entry_view, array_view, pairs_view, table_view};
ghost use Rattle.field_table.specs.Answers.{TableRefused};
ghost use Rattle.field_table.specs.Writing.{AreValuesWithin, ArePairsWithin, IsEntry, entry_bytes};

use crate::checking::DEPTH;
use crate::fields::{Field, FieldTable, TableEntry};
use crate::measuring::{pairs_len, values_len};
use crate::refusals::BadTable;

/// Appends the encoding of `table` to `out`, its length (4 bytes) first.
///
/// Returns [`BadTable::SyntaxError`] if the table can't be encoded, [`BadTable::Memory`] if an allocation fails. The content
/// of `out` has not changed then.
pub fn write_table(out: &mut Vec<u8>, table: &FieldTable) -> Result<(), BadTable>
    ensures ok { OnOk result (HavePairsSpelling (table_view table.now) × (out.new.items ≡ out.old.items ++ table_bytes (table_view table.now))) }
    ensures err { IfErr result (λ e. TableRefused e (HavePairsSpelling (table_view table.now) → ⊥) × (out.new.items ≡ out.old.items)) }
    // On an allocation failure the capacity was too small.
    ensures full { result ≡ Err Memory → vec_capacity out.old < vec_len out.old + length (table_bytes (table_view table.now)) }
{
    match pairs_len(&table.entries, DEPTH) {
        None => Err(BadTable::SyntaxError),
        Some(len) => {
            if out.reserve(4 + len).is_err() {
                return Err(BadTable::Memory);
            }
            put_bytes(out, &(len as u32).to_be_bytes());
            put_pairs(out, &table.entries, DEPTH);
            Ok(())
        }
    }
}

/// Appends a table's pairs. They can be encoded with at most `depth` levels inside, and `out` has enough spare capacity.
#[cycle(put)]
fn put_pairs(out: &mut Vec<u8>, entries: &[TableEntry], depth: usize)
    requires fits { ArePairsWithin depth (pairs_view entries.now) }
    requires room { vec_len out.old + length (pairs_bytes (pairs_view entries.now)) ≤ vec_capacity out.old }
    ensures items { out.new.items ≡ out.old.items ++ pairs_bytes (pairs_view entries.now) }
    ensures len { vec_len out.new ≡ vec_len out.old + length (pairs_bytes (pairs_view entries.now)) }
    ensures capacity { vec_capacity out.old ≤ vec_capacity out.new }
{
    'pairs: for entry in entries {
        put_entry(out, entry, depth);
    }
}

/// Appends a name and its value.
#[cycle(put)]
fn put_entry(out: &mut Vec<u8>, entry: &TableEntry, depth: usize)
    requires fits { IsEntry depth (entry_view entry.now) }
    requires room { vec_len out.old + length (entry_bytes (entry_view entry.now)) ≤ vec_capacity out.old }
    ensures items { out.new.items ≡ out.old.items ++ entry_bytes (entry_view entry.now) }
    ensures len { vec_len out.new ≡ vec_len out.old + length (entry_bytes (entry_view entry.now)) }
    ensures capacity { vec_capacity out.old ≤ vec_capacity out.new }
{
    put_bytes(out, &[entry.name.len() as u8]);
    put_bytes(out, entry.name.as_bytes());
    put_field(out, &entry.value, depth);
}

/// Appends an array's values. They can be encoded with at most `depth` levels inside, and `out` has enough spare capacity.
#[cycle(put)]
fn put_values(out: &mut Vec<u8>, values: &[Field], depth: usize)
    requires fits { AreValuesWithin depth (array_view values.now) }
    requires room { vec_len out.old + length (values_bytes (array_view values.now)) ≤ vec_capacity out.old }
    ensures items { out.new.items ≡ out.old.items ++ values_bytes (array_view values.now) }
    ensures len { vec_len out.new ≡ vec_len out.old + length (values_bytes (array_view values.now)) }
    ensures capacity { vec_capacity out.old ≤ vec_capacity out.new }
{
    'values: for value in values {
        put_field(out, value, depth);
    }
}

/// Appends the type letter and the value.
#[cycle(put)]
fn put_field(out: &mut Vec<u8>, field: &Field, depth: usize)
    requires fits { IsValue depth (field_view field.now) }
    requires room { vec_len out.old + length (letter (field_view field.now) ∷ content (field_view field.now)) ≤ vec_capacity out.old }
    ensures items { out.new.items ≡ out.old.items ++ letter (field_view field.now) ∷ content (field_view field.now) }
    ensures len { vec_len out.new ≡ vec_len out.old + length (letter (field_view field.now) ∷ content (field_view field.now)) }
    ensures capacity { vec_capacity out.old ≤ vec_capacity out.new }
{
    match field {
        Field::Truth(truth) => put(out, b't', &[*truth as u8]),
        Field::Byte(number) => put(out, b'b', &[*number]),
        Field::Short(number) => put(out, b's', &number.to_be_bytes()),
        Field::Long(number) => put(out, b'I', &number.to_be_bytes()),
        Field::LongLong(number) => put(out, b'l', &number.to_be_bytes()),
        Field::Float(bits) => put(out, b'f', &bits.to_be_bytes()),
        Field::Double(bits) => put(out, b'd', &bits.to_be_bytes()),
        Field::Decimal { scale, digits } => {
            put(out, b'D', &[*scale]);
            put_bytes(out, &digits.to_be_bytes());
        }
        Field::Text(text) => put_sized(out, b'S', text.as_bytes()),
        Field::Array(values) => {
            put_size(out, b'A', values_len(values, depth - 1));
            put_values(out, values, depth - 1);
        }
        Field::Timestamp(seconds) => put(out, b'T', &seconds.to_be_bytes()),
        Field::Table(table) => {
            put_size(out, b'F', pairs_len(&table.entries, depth - 1));
            put_pairs(out, &table.entries, depth - 1);
        }
        Field::Bytes(data) => put_sized(out, b'x', data.as_bytes()),
        Field::Void => put_bytes(out, b"V"),
    }
}

/// Appends `letter`, the length of `body` (4 bytes) and `body`.
fn put_sized(out: &mut Vec<u8>, letter: u8, body: &[u8])
    requires fits { length body.now < 2 ^ 32 }
    requires room { vec_len out.old + length (letter ∷ with_length body.now) ≤ vec_capacity out.old }
    ensures items { out.new.items ≡ out.old.items ++ letter ∷ with_length body.now }
    ensures len { vec_len out.new ≡ vec_len out.old + length (letter ∷ with_length body.now) }
    ensures capacity { vec_capacity out.old ≤ vec_capacity out.new }
{
    put(out, letter, &(body.len() as u32).to_be_bytes());
    put_bytes(out, body);
}

/// Appends `letter` and the length `len` (4 bytes).
fn put_size(out: &mut Vec<u8>, letter: u8, len: Option<usize>)
    // Premises: the length is known and fits, and `out` has 5 bytes of spare capacity.
    requires known { IsSome len }
    requires fits { IfSome len (λ n. n < 2 ^ 32) }
    requires room { vec_len out.old + 5 ≤ vec_capacity out.old }
    // Promise: letter and length are appended, and the capacity doesn't shrink.
    ensures items { IfSome len (λ n. out.new.items ≡ out.old.items ++ letter ∷ to_be_bytes w32 n) }
    ensures len { vec_len out.new ≡ vec_len out.old + 5 }
    ensures capacity { vec_capacity out.old ≤ vec_capacity out.new }
{
    match len {
        None => unreachable!(),
        Some(len) => put(out, letter, &(len as u32).to_be_bytes()),
    }
}

/// Appends `letter` and `bytes`, for which `out` has enough spare capacity.
fn put(out: &mut Vec<u8>, letter: u8, bytes: &[u8])
    requires { vec_len out.old + length (letter ∷ bytes.now) ≤ vec_capacity out.old }
    ensures items { out.new.items ≡ out.old.items ++ letter ∷ bytes.now }
    ensures len { vec_len out.new ≡ vec_len out.old + length (letter ∷ bytes.now) }
    ensures capacity { vec_capacity out.old ≤ vec_capacity out.new }
{
    put_bytes(out, &[letter]);
    put_bytes(out, bytes);
}

/// Appends `bytes` to `out`, which has enough spare capacity. It cannot fail.
pub fn put_bytes(out: &mut Vec<u8>, bytes: &[u8])
    requires { vec_len out.old + length bytes.now ≤ vec_capacity out.old }
    ensures items { out.new.items ≡ out.old.items ++ bytes.now }
    ensures len { vec_len out.new ≡ vec_len out.old + length bytes.now }
    ensures capacity { vec_capacity out.old ≤ vec_capacity out.new }
{
    match out.extend_from_slice(bytes) {
        Ok(()) => {}
        Err(_) => unreachable!(),
    }
}
