//! Why certificates can't be written.

use std::alloc::{AllocError, AllocFailed};

/// Why certificates have no file.
#[derive(Clone, Copy, PartialEq, Eq, Debug, Drop)]
pub enum Unwritten {
    /// A text of a certificate is not UTF-8, so a JSON file can't have it.
    NotText,
    /// The certificates file would be too long to be read back.
    TooLong,
    /// An allocation failed.
    Memory,
}

impl From<AllocError> for Unwritten {
    ghost use Rattle.std.specs.Prelude.{◌≡◌};
    ghost use Rattle.certificate.specs.declared.unwritten.Unwritten.TheVariants.{Memory};

    ghost from_gives = { λ _ r. r ≡ Memory };

    fn from(_: AllocError) -> Unwritten {
        Unwritten::Memory
    }
}

impl<T: Drop> From<AllocFailed<T>> for Unwritten {
    ghost use Rattle.std.specs.Prelude.{◌≡◌};
    ghost use Rattle.certificate.specs.declared.unwritten.Unwritten.TheVariants.{Memory};

    ghost from_gives = { λ _ r. r ≡ Memory };

    fn from(_: AllocFailed<T>) -> Unwritten {
        Unwritten::Memory
    }
}
