//! Why a file is refused.

use crate::storage;
use json_file::FileCause;
use std::alloc::AllocError;

/// Why a file is refused.
#[derive(Clone, Copy, PartialEq, Eq, Debug, Drop)]
pub(crate) enum FileRefusal {
    /// The cause of this number applies to the file, and none of a lower number.
    Refused(u8),
    /// The file is too long.
    TooLong,
    /// The file cannot be read.
    Unread,
    /// The file cannot be opened, since no descriptor is free.
    NoDescriptor,
    /// An allocation failed.
    Memory,
}

/// A refused file, and why it is refused.
#[derive(Clone, Copy, PartialEq, Eq, Debug, Drop)]
pub(crate) struct RefusedFile<'a> {
    /// The name of the file. May be empty if an allocation failed.
    pub(crate) file: &'a str,
    pub(crate) why: FileRefusal,
}

impl From<storage::Unread> for FileRefusal {
    ghost use Rattle.std.specs.Prelude.{◌≡◌};
    ghost use Rattle.server.specs.FileRefusals.{of_file};

    ghost from_gives = { λ why r. r ≡ of_file why };

    fn from(why: storage::Unread) -> FileRefusal {
        match why {
            storage::Unread::Failed => FileRefusal::Unread,
            storage::Unread::NoDescriptor => FileRefusal::NoDescriptor,
            storage::Unread::TooLong => FileRefusal::TooLong,
            storage::Unread::Memory => FileRefusal::Memory,
        }
    }
}

impl From<FileCause> for FileRefusal {
    ghost use Rattle.std.specs.Prelude.{◌≡◌};
    ghost use Rattle.server.specs.FileRefusals.{of_cause};

    ghost from_gives = { λ cause r. r ≡ of_cause cause };

    fn from(cause: FileCause) -> FileRefusal {
        match cause.number() {
            14 => FileRefusal::Memory,
            number => FileRefusal::Refused(number),
        }
    }
}

impl<'a> From<AllocError> for RefusedFile<'a> {
    ghost use Rattle.std.specs.Prelude.{◌≡◌};
    ghost use Rattle.server.specs.declared.file_refusals.FileRefusal.TheVariants.{Memory};

    ghost from_gives = { λ _ r. r.why ≡ Memory };

    fn from(_: AllocError) -> RefusedFile<'a> {
        RefusedFile {
            file: "",
            why: FileRefusal::Memory,
        }
    }
}
