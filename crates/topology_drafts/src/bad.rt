//! Why a topology can't be built.

use std::alloc::AllocError;

/// Why a topology can't be built. Of several reasons the first in this order is reported.
#[derive(Clone, Copy, PartialEq, Eq, Debug, Drop)]
pub enum BadTopology {
    /// Two queues or two exchanges have the same name.
    Repeated,
    /// The source or the destination of a binding doesn't exist.
    Absent,
    /// A queue has a dead-letter key and no dead-letter exchange.
    Argument,
    /// A name or a key is malformed.
    ///
    /// A binding key, dead-letter key or queue name has an empty word, over 31 words or over 255 bytes; an exchange or a
    /// queue has no name; or an exchange's name has over 255 bytes.
    Worded,
    /// There are over 256 exchanges, 256 queues or 4,096 bindings.
    TooMany,
    /// An alternate exchange doesn't exist, or a dead-letter exchange doesn't exist and isn't the default one.
    NoExchange,
    /// An allocation failed.
    Memory,
}

impl From<AllocError> for BadTopology {
    ghost use Rattle.std.specs.Prelude.{◌≡◌};
    ghost use Rattle.topology_drafts.specs.declared.bad.BadTopology.TheVariants.{Memory};

    ghost from_gives = { λ _ r. r ≡ Memory };

    fn from(_: AllocError) -> BadTopology {
        BadTopology::Memory
    }
}
