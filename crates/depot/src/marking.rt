//! The properties of a dead letter.

ghost use Rattle.std.specs.Prelude.{◌≡◌, ◌<◌, ◌++◌, length, IfOk, OnOk, Some};
ghost use Rattle.model.specs.Deaths.{first_death};
ghost use Rattle.depot.specs.Marked.{text_field, ArePropertiesMarked};

use field_table::has_field;
use headers::{fields_of, headers_of};
use model::{Properties, Table, Text};
use std::alloc::{AllocError, Global};

/// The header field with the queue of the first death.
const QUEUE: &[u8] = b"x-first-death-queue";

/// The header field with the reason of the first death.
const REASON: &[u8] = b"x-first-death-reason";

/// The header field with the exchange to which the message was sent before its first death.
const EXCHANGE: &[u8] = b"x-first-death-exchange";

/// Returns the properties of a message that dies in `queue`, last sent to `exchange`: its headers name its first death, in whatever queue that
/// was. They are shared if they name a death already. Fails only if an allocation fails.
pub(crate) fn marked(
    alloc: Global,
    queue: &Text,
    exchange: &Text,
    properties: &Properties,
) -> Result<Properties, AllocError>
    ensures { IfOk result (ArePropertiesMarked queue.now exchange.now properties.now) }
{
    let Some(headers) = headers_of(properties) else {
        let made = with_death(alloc, &[], queue.as_bytes(), exchange.as_bytes())?;
        return with_headers(alloc, properties, &made);
    };
    if has_field(headers, QUEUE) {
        return properties.clone();
    }
    let longer = with_death(alloc, headers, queue.as_bytes(), exchange.as_bytes())?;
    with_headers(alloc, properties, &longer)
}

/// Returns `properties` with `headers` as the encoded pairs of their headers. Fails only if an allocation fails.
fn with_headers(
    alloc: Global,
    properties: &Properties,
    headers: &[u8],
) -> Result<Properties, AllocError>
    ensures { IfOk result (λ p. p ≡ record properties.now { headers = Some headers.now }) }
{
    let mut fields = fields_of(alloc, properties)?;
    fields.headers = Some(Table::from_pairs(Text::from_slice(alloc, headers)?));
    Properties::new(alloc, fields)
}

/// Returns `headers` with the three fields of a first death appended. Fails only if an allocation fails.
fn with_death(
    alloc: Global,
    headers: &[u8],
    queue: &[u8],
    exchange: &[u8],
) -> Result<Vec<u8>, AllocError>
    ensures { IfOk result (λ bytes. bytes.items ≡ headers.now ++ first_death queue.now exchange.now) }
{
    let mut bytes = Vec::new(alloc);
    bytes.extend_from_slice(headers)?;
    put_text(&mut bytes, QUEUE, queue)?;
    put_text(&mut bytes, REASON, b"rejected")?;
    put_text(&mut bytes, EXCHANGE, exchange)?;
    Ok(bytes)
}

/// Appends a field with a long string: `name` after its length in one byte, the letter S, and `text` after its length in four bytes.
fn put_text(out: &mut Vec<u8>, name: &[u8], text: &[u8]) -> Result<(), AllocError>
    requires { length name.now < 256 }
    ensures { OnOk result (out.new.items ≡ out.old.items ++ text_field name.now text.now) }
{
    let len = (text.len() as u64).to_be_bytes();
    out.extend_from_slice(&[name.len() as u8])?;
    out.extend_from_slice(name)?;
    out.extend_from_slice(b"S")?;
    out.extend_from_slice(&len[4..])?;
    out.extend_from_slice(text)?;
    Ok(())
}
