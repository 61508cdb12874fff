//! The types of a decoded header, and the errors of reading and writing one.

use model::Properties;
use std::alloc::AllocError;
use thiserror::Error;

/// A content header: the declared size of the body in bytes, and the properties.
#[derive(Drop)]
pub struct Header {
    pub size: u64,
    pub properties: Properties,
}

/// Why a payload was not read as a header.
#[derive(Clone, Copy, PartialEq, Eq, Debug, Drop, Error)]
pub enum BadHeader {
    /// The payload is shorter than 14 bytes, or of another class or weight. Reply code 501, frame-error.
    #[error("frame-error: no header of a content of the basic class")]
    FrameError,
    /// The properties end early, leave bytes over or hold a table that isn't one, or one of the two lowest flags is set.
    /// Reply code 502, syntax-error.
    #[error("syntax-error: properties that the flags do not say")]
    SyntaxError,
    /// An allocation failed.
    #[error("out of memory")]
    Memory,
}

impl From<AllocError> for BadHeader {
    ghost use Rattle.std.specs.Prelude.{◌≡◌};
    ghost use Rattle.headers.specs.declared.contents.BadHeader.TheVariants.{Memory};

    ghost from_gives = { λ _ e. e ≡ Memory };

    fn from(_e: AllocError) -> BadHeader {
        BadHeader::Memory
    }
}

/// Why a header was not written.
#[derive(Clone, Copy, PartialEq, Eq, Debug, Drop, Error)]
pub enum UnwrittenHeader {
    /// The properties can't be encoded: a text is too long, or the headers aren't a table. Reply code 502, syntax-error.
    #[error("syntax-error: a text that is too long, or headers that are no table")]
    SyntaxError,
    /// An allocation failed.
    #[error("out of memory")]
    Memory,
}
