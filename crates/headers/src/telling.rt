//! Returns the parts of properties, in whichever form these are kept.

ghost use Rattle.std.specs.Prelude.{◌≡◌, IfOk, option_map};
ghost use Rattle.model.specs.Headers.{properties_of};
ghost use Rattle.model.specs.Properties.{spelled_by, IsSpelling};
ghost use Rattle.headers.specs.Unread.{parts_in};

use crate::optional::{Parts, parts_at};
use crate::properties::copied;
use byteorder::{BigEndian, ByteOrder};
use model::{Fields, Form, Properties};
use std::alloc::{AllocError, Global};

/// Copies `properties` one by one. The copy may share their bytes. Fails only if an allocation fails.
pub fn fields_of(alloc: Global, properties: &Properties) -> Result<Fields, AllocError>
    ensures { IfOk result (λ fields. fields ≡ properties.now) }
{
    match properties.form() {
        Form::Spelled(bytes) => spelled_fields(alloc, bytes),
        Form::Apart(fields) => fields.clone(),
    }
}

/// Returns the encoded pairs of the headers, if there are any. Never allocates.
pub fn headers_of(properties: &Properties) -> Option<&[u8]>
    ensures { option_map (λ h. h.now) result ≡ properties.now.headers }
{
    match properties.form() {
        Form::Spelled(bytes) => spelled_parts(bytes).front.headers,
        Form::Apart(fields) => match &fields.headers {
            None => None,
            Some(headers) => Some(headers.as_bytes()),
        },
    }
}

/// Decodes the properties that `bytes` encode: flags, followed by values. Fails only if an allocation fails.
fn spelled_fields(alloc: Global, bytes: &[u8]) -> Result<Fields, AllocError>
    requires { IsSpelling bytes.now }
    ensures { IfOk result (λ fields. fields ≡ spelled_by bytes.now) }
{
    copied(alloc, &spelled_parts(bytes))
}

/// Returns the properties that `bytes` encode, borrowed from them.
fn spelled_parts(bytes: &[u8]) -> Parts<'_>
    requires { IsSpelling bytes.now }
    ensures { parts_in result ≡ properties_of (spelled_by bytes.now) }
{
    let (flags, values) = bytes.split_at(2);
    match parts_at(BigEndian::read_u16(flags), values) {
        Some(parts) => parts,
        None => unreachable!(),
    }
}
