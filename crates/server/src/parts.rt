//! Compares a file with bytes, part by part. Start with [`has_bytes_left`].

ghost use Rattle.std.specs.Prelude.{◌≡◌, ◌++◌, IfOk, MatchOption};
ghost use Rattle.model.specs.Words.{Text};
ghost use Rattle.server.specs.Files.{ReturnsSameRest};

use std::io;
use std::io::{ErrorKind, Read};

/// The number of bytes read at a time.
const PART: usize = 16_384;

/// Returns the rest of `bytes` behind `part`, or `None` if `bytes` doesn't begin with `part`.
fn behind<'a>(bytes: &'a [u8], part: &[u8]) -> Option<&'a [u8]>
    ensures { MatchOption result ((rest : Text) → bytes.now ≡ part.now ++ rest → ⊥) (λ rest. bytes.now ≡ part.now ++ rest.now) }
{
    if bytes.len() < part.len() {
        return None;
    }
    let (front, rest) = bytes.split_at(part.len());
    if front == part { Some(rest) } else { None }
}

/// Returns whether the rest of `reader` is exactly `bytes`.
///
/// Reads parts of 16,384 bytes, and stops at the first part that differs. Retries interrupted reads. Never allocates.
pub fn has_bytes_left<R: Read>(reader: &mut R, bytes: &[u8]) -> io::Result<bool>
    ensures { IfOk result (ReturnsSameRest (R.remaining reader.old) bytes.now) }
{
    let mut part = [0; PART];
    let mut rest = bytes;
    'parts: for _ in 0..u64::MAX {
        match reader.read(&mut part) {
            Ok(0) => return Ok(rest.is_empty()),
            Ok(count) => match behind(rest, &part[..count]) {
                Some(left) => rest = left,
                None => return Ok(false),
            },
            Err(error) => {
                if error.kind() != ErrorKind::Interrupted {
                    return Err(error);
                }
            }
        }
    }
    Err(io::Error::from(ErrorKind::Interrupted))
}
