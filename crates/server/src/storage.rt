//! How the program reads and writes files. Start with [`Files`].

ghost use Rattle.std.specs.Prelude.{◌≡◌, List, ℕ, MatchResult, OnOk};
ghost use Rattle.server.specs.Files.{Known, IsFileRead, IsUnread, HasText, ReturnsSame};

use std::alloc::Global;

/// Why a file could not be read.
#[derive(Clone, Copy, PartialEq, Eq, Debug, Drop)]
pub enum Unread {
    /// The file doesn't exist, or a read failed.
    Failed,
    /// The process, or the machine, has as many open files and sockets as it may have.
    NoDescriptor,
    /// The file has more than 16,777,216 bytes.
    TooLong,
    /// An allocation failed.
    Memory,
}

/// The error of a file that could not be written.
#[derive(Clone, Copy, PartialEq, Eq, Debug, Drop)]
pub struct NotWritten;

/// Reads and writes files by name. The program gets its files from here, so that tests can keep them in memory.
pub trait Files {
    /// What is known about the file with a given name.
    ghost holds: { Self → List ℕ → Known };

    /// Reads the whole file, of at most 16,777,216 bytes.
    fn read(&mut self, alloc: Global, name: &str) -> Result<Vec<u8>, Unread>
        ensures read { MatchResult result (λ bytes. IsFileRead (holds self.old name.now) bytes.items) (λ why. IsUnread (holds self.old name.now) why) }
        ensures stays { (other : List ℕ) → holds self.new other ≡ holds self.old other };

    /// Returns whether the file has exactly `bytes`, of which there are at most 16,777,216.
    ///
    /// An implementation that reads in parts copies nothing, and stops reading where the file and `bytes` differ.
    fn has_bytes(&mut self, alloc: Global, name: &str, bytes: &[u8]) -> Result<bool, Unread>
        ensures compared { MatchResult result (ReturnsSame (holds self.old name.now) bytes.now) (λ why. IsUnread (holds self.old name.now) why) }
        ensures stays { (other : List ℕ) → holds self.new other ≡ holds self.old other }
    {
        let found = self.read(alloc, name)?;
        Ok(found.as_slice() == bytes)
    }

    /// Writes `bytes` as the file's whole content. A failed write promises nothing about that file.
    fn write(&mut self, name: &str, bytes: &[u8]) -> Result<(), NotWritten>
        ensures written { OnOk result (HasText (holds self.new name.now) bytes.now) }
        ensures others { (other : List ℕ) → (other ≡ name.now → ⊥) → holds self.new other ≡ holds self.old other };
}
