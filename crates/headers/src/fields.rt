//! Reads the fixed fields of a header.

ghost use Rattle.std.specs.Prelude.{MatchOption};
ghost use Rattle.model.specs.Headers.{IsNoHeader};
ghost use Rattle.headers.specs.Reading.{Fields};

use byteorder::{BigEndian, ByteOrder};

/// Splits `payload` into body size, flags and the bytes after them. Returns `None` if it is shorter than 14 bytes or of another class or weight.
pub fn fields_at(payload: &[u8]) -> Option<(u64, u16, &[u8])>
    ensures { MatchOption result (IsNoHeader payload.now) (λ x. Fields payload.now x.0 x.1 x.2.now) }
{
    if payload.len() < 14 {
        return None;
    }
    let (front, rest) = payload.split_at(14);
    let class = BigEndian::read_u16(front);
    let weight = BigEndian::read_u16(&front[2..]);
    if class != 60 {
        return None;
    }
    if weight != 0 {
        return None;
    }
    let size = BigEndian::read_u64(&front[4..]);
    let flags = BigEndian::read_u16(&front[12..]);
    Some((size, flags, rest))
}
