//! The verdict of a search.

use certificate::{Certificate, Refutation};

/// Why a search doesn't decide a guarantee.
#[derive(Clone, Copy, PartialEq, Eq, Debug, Drop)]
pub enum UndecidedCause {
    /// There are more than 64 tracked patterns, or more than 65,536 states.
    TooManyStates,
    /// A key was found that breaks the guarantee, but it has more than 255 bytes.
    KeyTooLong,
}

/// Whether a guarantee holds, with what shows it.
#[derive(Drop)]
pub enum Verdict {
    /// It holds: the certificate is accepted.
    Yes(Certificate),
    /// It doesn't hold: the refutation has a key that breaks it.
    No(Refutation),
    /// The search doesn't decide it.
    Undecided(UndecidedCause),
}
