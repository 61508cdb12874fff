//! The files of the machine.

ghost use Rattle.std.specs.Prelude.{◌≡◌, ◌≤◌, length, IfOk};
ghost use Rattle.std.specs.IoError.{raw_os_error};
ghost use Rattle.server.specs.declared.storage.Unread.TheVariants as why;
ghost use Rattle.reload_loop.specs.Disk.{IsNoneFree};

use model::limits;
use server::{Files, NotWritten, Unread, has_bytes_left};
use std::alloc::Global;
use std::io::{ErrorKind, Read};
use std::{fs, io};

/// The files of the machine, by path. `/dev/stdin` is read from the standard input of the process.
#[derive(Clone, Copy, Drop)]
pub struct Disk<'a> {
    pub rt: &'a HostRuntime,
}

/// The path that names the standard input.
const STANDARD_INPUT: &str = "/dev/stdin";

/// Returns why a read failed, by the kind of its error. A descriptor was free, so that is not the reason.
fn unread_by_kind(kind: ErrorKind) -> Unread
    ensures { result ≡ why.NoDescriptor → ⊥ }
{
    match kind {
        ErrorKind::OutOfMemory => Unread::Memory,
        _ => Unread::Failed,
    }
}

/// Returns why a read failed, by the system's error.
pub(crate) fn unread(error: &io::Error) -> Unread
    ensures none_free { IsNoneFree (raw_os_error error.now) → result ≡ why.NoDescriptor }
    ensures only { result ≡ why.NoDescriptor → IsNoneFree (raw_os_error error.now) }
{
    match error.raw_os_error() {
        // EMFILE: the process has as many descriptors as it may have
        Some(24) => Unread::NoDescriptor,
        // ENFILE: the machine has as many open files as it may have
        Some(23) => Unread::NoDescriptor,
        _ => unread_by_kind(error.kind()),
    }
}

/// Reads a file up to the limit, and one byte more if it is longer.
fn front_of<R: Read + Drop>(alloc: Global, file: R) -> io::Result<Vec<u8>> {
    let mut bytes = Vec::new(alloc);
    file.take(limits::FILE_BYTES as u64 + 1)
        .read_to_end(&mut bytes)?;
    Ok(bytes)
}

/// Returns the bytes, unless there are more than the limit.
fn within_limit(bytes: Vec<u8>) -> Result<Vec<u8>, Unread>
    ensures { IfOk result (λ kept. length kept.items ≤ 16777216) }
{
    if bytes.len() > limits::FILE_BYTES {
        Err(Unread::TooLong)
    } else {
        Ok(bytes)
    }
}

impl Disk<'_> {
    /// Reads the file `name` up to the limit, and one byte more if it is longer.
    fn front(&self, alloc: Global, name: &str) -> io::Result<Vec<u8>> {
        if name == STANDARD_INPUT {
            front_of(alloc, self.rt.reader())
        } else {
            front_of(alloc, fs::open(self.rt, name)?)
        }
    }

    /// Returns whether the file `name` has exactly these bytes.
    fn compare(&self, name: &str, bytes: &[u8]) -> io::Result<bool> {
        if name == STANDARD_INPUT {
            has_bytes_left(&mut self.rt.reader(), bytes)
        } else {
            has_bytes_left(&mut fs::open(self.rt, name)?, bytes)
        }
    }
}

impl Files for Disk<'_> {
    ghost use Rattle.server.specs.Files.{Unknown};

    ghost holds = { λ _ _. Unknown };

    fn read(&mut self, alloc: Global, name: &str) -> Result<Vec<u8>, Unread> {
        match self.front(alloc, name) {
            Ok(bytes) => within_limit(bytes),
            Err(error) => Err(unread(&error)),
        }
    }

    fn has_bytes(&mut self, _alloc: Global, name: &str, bytes: &[u8]) -> Result<bool, Unread> {
        match self.compare(name, bytes) {
            Ok(true) if bytes.len() > limits::FILE_BYTES => Err(Unread::TooLong),
            Ok(same) => Ok(same),
            Err(error) => Err(unread(&error)),
        }
    }

    fn write(&mut self, name: &str, bytes: &[u8]) -> Result<(), NotWritten> {
        match fs::write(self.rt, name, bytes) {
            Ok(()) => Ok(()),
            Err(_) => Err(NotWritten),
        }
    }
}
