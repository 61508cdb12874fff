//! Writes texts to streams.

ghost use Rattle.std.specs.Prelude.{◌≡◌, is_ok};
ghost use Rattle.server.specs.Streams.{PutsOut, change, status_after};

use std::io;
use std::io::{ErrorKind, Write};

/// Writes all of `text` to `stream`, retrying interrupted writes. If a write fails, a proper prefix of `text` was written.
pub fn put<W: Write>(stream: &mut W, text: &[u8]) -> io::Result<()>
    ensures { PutsOut (change (W.contents stream.old) (W.contents stream.new)) text.now (is_ok result) }
{
    let mut rest = text;
    'pieces: for _ in 0..u64::MAX {
        if rest.is_empty() {
            return Ok(());
        }
        match stream.write(rest) {
            Ok(0) => return Err(io::Error::from(ErrorKind::WriteZero)),
            Ok(n) => rest = rest.split_at(n).1,
            Err(error) => {
                if error.kind() != ErrorKind::Interrupted {
                    return Err(error);
                }
            }
        }
    }
    if rest.is_empty() {
        return Ok(());
    }
    Err(io::Error::from(ErrorKind::Interrupted))
}

/// Returns `status` if the write succeeded, and 4 if it failed.
pub fn status_after(put: io::Result<()>, status: u8) -> u8
    ensures { result ≡ status_after (is_ok put) status }
{
    match put {
        Ok(()) => status,
        Err(_) => 4,
    }
}
