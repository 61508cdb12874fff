//! Encodes a header: measured first, so that the output grows once.

ghost use Rattle.std.specs.Prelude.{◌≡◌, ◌+◌, ◌<◌, ◌≤◌, ◌++◌, length, vec_len, vec_capacity, OnOk, IfErr, Err};
ghost use Rattle.model.specs.Headers.{header_bytes, AreProperties};
ghost use Rattle.headers.specs.declared.contents.UnwrittenHeader.TheVariants.{Memory};
ghost use Rattle.headers.specs.Writing.{sized, CountsHeader, PropertiesRefused};

use crate::contents::UnwrittenHeader;
use crate::measuring::{back_flags, back_len, front_flags, front_len};
use crate::putting::{put_back, put_fixed, put_front, put_sized};
use field_table::put_bytes;
use model::{Fields, Form, Properties};

/// Appends the payload of the header frame for a body of `size` bytes to `out`.
///
/// Returns [`UnwrittenHeader::SyntaxError`] if `properties` can't be encoded, [`UnwrittenHeader::Memory`] if an allocation
/// fails. The content of `out` has not changed then.
pub fn write_header(
    out: &mut Vec<u8>,
    size: u64,
    properties: &Properties,
) -> Result<(), UnwrittenHeader>
    ensures ok { OnOk result (AreProperties properties.now × (out.new.items ≡ out.old.items ++ header_bytes size properties.now)) }
    ensures err { IfErr result (λ e. PropertiesRefused properties.now e × (out.new.items ≡ out.old.items)) }
    // On an allocation failure the capacity was too small.
    ensures full { result ≡ Err Memory → vec_capacity out.old < vec_len out.old + length (header_bytes size properties.now) }
{
    match spelled_len(properties) {
        None => Err(UnwrittenHeader::SyntaxError),
        Some(len) => {
            match out.reserve(len) {
                Ok(()) => {}
                Err(_) => return Err(UnwrittenHeader::Memory),
            }
            put_header(out, size, properties);
            Ok(())
        }
    }
}

/// Returns the length of a header payload with these properties in bytes, whatever the body's size, or `None` if they can't be encoded.
pub fn spelled_len(properties: &Properties) -> Option<usize>
    ensures { CountsHeader properties.now result }
{
    match properties.form() {
        Form::Spelled(bytes) => Some(12 + bytes.len()),
        Form::Apart(fields) => fields_len(fields),
    }
}

/// Returns what [`spelled_len`] does, for properties that are kept one by one.
fn fields_len(fields: &Fields) -> Option<usize>
    ensures { CountsHeader fields.now result }
{
    let front = front_len(fields)?;
    let back = back_len(fields)?;
    Some(14 + front + back)
}

/// Appends the header's payload to `out`, which has enough spare capacity; `properties` can be encoded. Never allocates.
pub fn put_header(out: &mut Vec<u8>, size: u64, properties: &Properties)
    requires spelled { AreProperties properties.now }
    requires room { vec_len out.old + length (header_bytes size properties.now) ≤ vec_capacity out.old }
    ensures items { out.new.items ≡ out.old.items ++ header_bytes size properties.now }
    ensures len { vec_len out.new ≡ vec_len out.old + length (header_bytes size properties.now) }
    ensures capacity { vec_capacity out.old ≤ vec_capacity out.new }
{
    match properties.form() {
        Form::Spelled(bytes) => put_spelled(out, size, bytes),
        Form::Apart(fields) => put_fields(out, size, fields),
    }
}

/// Appends the header's payload; `bytes` are its flags and values.
fn put_spelled(out: &mut Vec<u8>, size: u64, bytes: &[u8])
    requires { vec_len out.old + 12 + length bytes.now ≤ vec_capacity out.old }
    ensures items { out.new.items ≡ out.old.items ++ sized size ++ bytes.now }
    ensures len { vec_len out.new ≡ vec_len out.old + 12 + length bytes.now }
    ensures capacity { vec_capacity out.old ≤ vec_capacity out.new }
{
    put_sized(out, size);
    put_bytes(out, bytes);
}

/// Appends the header's payload for properties that are kept one by one.
fn put_fields(out: &mut Vec<u8>, size: u64, fields: &Fields)
    requires spelled { AreProperties fields.now }
    requires room { vec_len out.old + length (header_bytes size fields.now) ≤ vec_capacity out.old }
    ensures items { out.new.items ≡ out.old.items ++ header_bytes size fields.now }
    ensures len { vec_len out.new ≡ vec_len out.old + length (header_bytes size fields.now) }
    ensures capacity { vec_capacity out.old ≤ vec_capacity out.new }
{
    put_fixed(out, size, front_flags(fields) + back_flags(fields));
    put_front(out, fields);
    put_back(out, fields);
}
