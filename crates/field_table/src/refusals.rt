//! The errors of reading and writing a table.

use std::alloc::{AllocError, AllocFailed};
use thiserror::Error;

/// Why a table was not read or not written.
#[derive(Clone, Copy, PartialEq, Eq, Debug, Drop, Error)]
pub enum BadTable {
    /// The bytes are not a table, or the table can't be encoded. Reply code 502, syntax-error.
    #[error("syntax-error: no field table")]
    SyntaxError,
    /// An allocation failed.
    #[error("out of memory")]
    Memory,
}

impl From<AllocError> for BadTable {
    ghost use Rattle.std.specs.Prelude.{◌≡◌};
    ghost use Rattle.field_table.specs.declared.refusals.BadTable.TheVariants.{Memory};

    ghost from_gives = { λ _ e. e ≡ Memory };

    fn from(_e: AllocError) -> BadTable {
        BadTable::Memory
    }
}

impl<T: Drop> From<AllocFailed<T>> for BadTable {
    ghost use Rattle.std.specs.Prelude.{◌≡◌};
    ghost use Rattle.field_table.specs.declared.refusals.BadTable.TheVariants.{Memory};

    ghost from_gives = { λ _ e. e ≡ Memory };

    fn from(_e: AllocFailed<T>) -> BadTable {
        BadTable::Memory
    }
}
