//! Why a certificate is not accepted.

use model::Text;
use std::alloc::AllocError;

/// The first condition that a certificate breaks.
/// The order is: the form, the state before any word, then state by state its promise and its letters.
#[derive(Drop)]
pub enum CertFault {
    /// 1: the state before any word is not listed.
    Start,
    /// 2: from the state at index `state` a letter leads to one that is neither listed nor dropped.
    /// `word` is `None` for the letter of all words that no pattern names.
    Open { state: usize, word: Option<Text> },
    /// 3, for a `reaches`: keys of the state at index `state` are covered, and their messages may miss the queue.
    Missed { state: usize },
    /// 4, for a `never`: keys of the state at index `state` are covered, and their messages may reach the queue.
    Forbidden { state: usize },
    /// 5: it doesn't have the form that the guarantee needs.
    Form,
    /// 6: an allocation failed.
    Memory,
}

impl From<AllocError> for CertFault {
    ghost use Rattle.std.specs.Prelude.{◌≡◌};
    ghost use Rattle.certificate.specs.declared.faults.CertFault.TheVariants.{Memory};

    ghost from_gives = { λ _ r. r ≡ Memory };

    fn from(_: AllocError) -> CertFault {
        CertFault::Memory
    }
}
