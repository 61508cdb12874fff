//! Decodes a header, or only the size that it declares.

ghost use Rattle.std.specs.Prelude.{◌≡◌, ◌<◌, ◌^◌};
ghost use Rattle.model.specs.Headers;
ghost use Rattle.model.specs.Headers.{header_bytes, AreProperties};
ghost use Rattle.headers.specs.Reading.{ReturnsSize, ReturnsHeader, IsHeaderOr};

use crate::contents::{BadHeader, Header};
use crate::fields::fields_at;
use crate::properties::properties_in;
use std::alloc::Global;

/// Returns the body size in bytes that `payload` declares. Fails with [`BadHeader::FrameError`] if it is no content header of the basic class.
/// Flags and properties are not looked at. Never allocates.
pub fn read_size(payload: &[u8]) -> Result<u64, BadHeader>
    ensures { ReturnsSize payload.now result }
{
    match fields_at(payload) {
        None => Err(BadHeader::FrameError),
        Some((size, _, _)) => Ok(size),
    }
}

/// Decodes the payload of a header frame.
///
/// Each refusal is a variant of [`BadHeader`] with its reply code. [`BadHeader::Memory`] means that an allocation failed.
pub fn read_header(alloc: Global, payload: &[u8]) -> Result<Header, BadHeader>
    ensures read { ReturnsHeader payload.now result }
    // Promise: a header that `payload` encodes is returned, unless an allocation fails.
    ensures only { (h : Headers.Header) → h.size < 2 ^ 64 → AreProperties h.properties → payload.now ≡ header_bytes h.size h.properties → IsHeaderOr h result }
{
    match fields_at(payload) {
        None => Err(BadHeader::FrameError),
        Some((size, flags, rest)) => match properties_in(alloc, flags, rest, &payload[12..]) {
            Ok(properties) => Ok(Header { size, properties }),
            Err(refusal) => Err(refusal),
        },
    }
}
