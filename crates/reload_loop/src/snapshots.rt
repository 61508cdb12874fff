//! The three files of a broker, as they were read.

ghost use Rattle.std.specs.Prelude.{◌≡◌, Decides, true};
ghost use Rattle.server.specs.Files.{AreKept, GivesBytes};
ghost use Rattle.reload_loop.specs.Snapshots.{AllRead, AreHeld, AreSame, IsReadFrom, IsSameText, IsSlotOf, known_in, known_of, names_of};

use model::limits;
use server::{Files, NotWritten, Unread};
use std::alloc::Global;
use std::marker::Model;

/// The names of the three files of a broker.
#[derive(Clone, Copy, Drop)]
pub struct Names<'a> {
    pub definitions: &'a str,
    pub guarantees: &'a str,
    pub certificates: &'a str,
}

/// The bytes of the three files as each was read once, or why it could not be read.
pub struct Snapshot {
    definitions: Result<Vec<u8>, Unread>,
    guarantees: Result<Vec<u8>, Unread>,
    certificates: Result<Vec<u8>, Unread>,
}

/// Not derived: a derived drop is expanded, and proved again, in each function that drops the value.
impl Drop for Snapshot {
    fn drop(self) {
        let Snapshot {
            definitions: _,
            guarantees: _,
            certificates: _,
        } = self;
    }
}

impl Model for Snapshot {
    ghost use Rattle.reload_loop.specs.Snapshots.{Snap, known_of};

    ghost Value = { Snap };

    ghost view = { λ s. record { definitions = known_of s.definitions; guarantees = known_of s.guarantees; certificates = known_of s.certificates } };
}

impl Snapshot {
    /// Reads the three files. None is changed.
    pub fn take<F: Files>(alloc: Global, names: Names<'_>, files: &mut F) -> Snapshot
        ensures read { IsReadFrom (F.holds files.old) (names_of names.entry) result }
        ensures files { AreKept (F.holds files.old) (F.holds files.new) }
    {
        let definitions = files.read(alloc, names.definitions);
        let guarantees = files.read(alloc, names.guarantees);
        let certificates = files.read(alloc, names.certificates);
        Snapshot {
            definitions,
            guarantees,
            certificates,
        }
    }

    /// Returns whether each of the three files was read.
    fn is_whole(&self) -> bool
        ensures { result ≡ true → AllRead self.now }
    {
        self.definitions.is_ok() & self.guarantees.is_ok() & self.certificates.is_ok()
    }

    /// Returns whether each of the three files was read and still has the same bytes. No file is changed.
    pub(crate) fn is_held<F: Files>(&self, alloc: Global, names: Names<'_>, files: &mut F) -> bool
        ensures held { result ≡ true → AreHeld (F.holds files.old) (names_of names.entry) self.now }
        ensures files { AreKept (F.holds files.old) (F.holds files.new) }
    {
        self.is_whole() && self.is_found(alloc, names, files)
    }

    /// Returns whether each file still is as it was read: it has the same bytes, or still can't be read, for the same cause. Compares bytes
    /// while it reads them. No file is changed.
    pub(crate) fn is_found<F: Files>(&self, alloc: Global, names: Names<'_>, files: &mut F) -> bool
        ensures found { result ≡ true → IsReadFrom (F.holds files.old) (names_of names.entry) self.now }
        ensures files { AreKept (F.holds files.old) (F.holds files.new) }
    {
        is_found_in(alloc, files, names.definitions, &self.definitions)
            && is_found_in(alloc, files, names.guarantees, &self.guarantees)
            && is_found_in(alloc, files, names.certificates, &self.certificates)
    }

    /// Returns whether each file was read in both snapshots, with the same bytes.
    pub(crate) fn has_same(&self, other: &Snapshot) -> bool
        ensures { Decides result (AreSame self.now other.now) }
    {
        have_same(&self.definitions, &other.definitions)
            && have_same(&self.guarantees, &other.guarantees)
            && have_same(&self.certificates, &other.certificates)
    }

    /// Returns a copy of the bytes of the file `name`, which is one of the three.
    fn copy_of(&self, alloc: Global, names: Names<'_>, name: &str) -> Result<Vec<u8>, Unread>
        ensures { GivesBytes (known_in (names_of names.entry) self.now name.now) result }
    {
        if name == names.definitions {
            return copied(alloc, &self.definitions);
        }
        if name == names.guarantees {
            return copied(alloc, &self.guarantees);
        }
        if name == names.certificates {
            return copied(alloc, &self.certificates);
        }
        Err(Unread::Failed)
    }
}

/// Returns whether both were read, with the same bytes.
fn have_same(one: &Result<Vec<u8>, Unread>, other: &Result<Vec<u8>, Unread>) -> bool
    ensures { Decides result (IsSameText (known_of one.now) (known_of other.now)) }
{
    match (one, other) {
        (Ok(one), Ok(other)) => one.as_slice() == other.as_slice(),
        _ => false,
    }
}

/// Returns whether the file `name` still is as it was read. A file that was too long is read again; an allocation failure never counts as the same.
fn is_found_in<F: Files>(
    alloc: Global,
    files: &mut F,
    name: &str,
    slot: &Result<Vec<u8>, Unread>,
) -> bool
    ensures found { result ≡ true → IsSlotOf (F.holds files.old name.now) (known_of slot.now) }
    ensures files { AreKept (F.holds files.old) (F.holds files.new) }
{
    match slot {
        Ok(bytes) => match files.has_bytes(alloc, name, bytes.as_slice()) {
            Ok(same) => same,
            Err(_) => false,
        },
        Err(Unread::Failed) => matches!(files.has_bytes(alloc, name, &[]), Err(Unread::Failed)),
        Err(Unread::NoDescriptor) => {
            matches!(files.has_bytes(alloc, name, &[]), Err(Unread::NoDescriptor))
        }
        Err(Unread::TooLong) => matches!(files.read(alloc, name), Err(Unread::TooLong)),
        Err(Unread::Memory) => false,
    }
}

/// Returns a copy of the bytes of one file.
fn copied(alloc: Global, slot: &Result<Vec<u8>, Unread>) -> Result<Vec<u8>, Unread>
    ensures { GivesBytes (known_of slot.now) result }
{
    match slot {
        Ok(bytes) => {
            if bytes.len() > limits::FILE_BYTES {
                return Err(Unread::TooLong);
            }
            match Vec::from_slice(alloc, bytes.as_slice()) {
                Ok(copy) => Ok(copy),
                Err(_) => Err(Unread::Memory),
            }
        }
        Err(why) => Err(*why),
    }
}

/// The three files as they were read, as `Files`: judging reads them from here. They can't be written.
#[derive(Clone, Copy, Drop)]
pub struct Reading<'a> {
    pub names: Names<'a>,
    pub snapshot: &'a Snapshot,
}

impl<'a> Files for Reading<'a> {
    ghost use Rattle.reload_loop.specs.Snapshots.{known_in, names_of};

    ghost holds = { λ r. known_in (names_of r.names) r.snapshot.now };

    fn read(&mut self, alloc: Global, name: &str) -> Result<Vec<u8>, Unread> {
        self.snapshot.copy_of(alloc, self.names, name)
    }

    fn write(&mut self, _name: &str, _bytes: &[u8]) -> Result<(), NotWritten> {
        Err(NotWritten)
    }
}
