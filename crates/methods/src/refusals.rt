//! The errors of reading and writing a method.

ghost use Rattle.std.specs.Prelude.{◌≡◌};
ghost use Rattle.methods.specs.declared.refusals.BadMethod.TheVariants.{Memory};

use std::alloc::AllocError;
use thiserror::Error;

/// Why a payload was not read as a method.
#[derive(Clone, Copy, PartialEq, Eq, Debug, Drop, Error)]
pub enum BadMethod {
    /// The payload is shorter than a class id and a method id. Reply code 501, frame-error.
    #[error("frame-error: a payload too short for a class and a method")]
    FrameError,
    /// The arguments end early, leave bytes over, set an unused bit, or hold a table that isn't one. Reply code 502, syntax-error.
    #[error("syntax-error: arguments that the method does not have")]
    SyntaxError,
    /// No method has this class id and method id. Reply code 503, command-invalid.
    #[error("command-invalid: no method of this class and method")]
    CommandInvalid,
    /// The method is not implemented: class tx, or basic.recover-async. Reply code 540, not-implemented.
    #[error("not-implemented: a method that is left out")]
    NotImplemented,
    /// An allocation failed.
    #[error("out of memory")]
    Memory,
}

impl From<AllocError> for BadMethod {
    ghost from_gives = { λ _ e. e ≡ Memory };

    fn from(_e: AllocError) -> BadMethod {
        BadMethod::Memory
    }
}

/// Why a method was not written.
#[derive(Clone, Copy, PartialEq, Eq, Debug, Drop, Error)]
pub enum UnwrittenMethod {
    /// The method can't be encoded: a text is too long, or a table isn't one. Reply code 502, syntax-error.
    #[error("syntax-error: a text that is too long, or a table that is none")]
    SyntaxError,
    /// An allocation failed.
    #[error("out of memory")]
    Memory,
}
