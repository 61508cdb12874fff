//! A stream that takes no byte.

use std::io;
use std::io::{ErrorKind, Write};

/// A stream on which every write fails with `BrokenPipe`.
#[derive(Drop)]
pub struct Closed;

impl Write for Closed {
    fn write(&mut self, _buf: &[u8]) -> io::Result<usize> {
        Err(io::Error::from(ErrorKind::BrokenPipe))
    }

    fn flush(&mut self) -> io::Result<()> {
        Ok(())
    }
}
