//! A certificates file that is written while the certificates are found. Start with [`Draft`].

ghost use Rattle.std.specs.Prelude.{◌≡◌, ◌++◌, ◌∷◌, [], IfOk, List, MatchResult};
ghost use Rattle.model.specs.Certificates.{Certificate as Shown};
ghost use Rattle.certificate.specs.Drafts.{HasNoFile, IsBegun, IsDraft, IsFile};

use crate::certificates::Certificate;
use crate::unwritten::Unwritten;
use crate::writing::put_listed;
use model::limits;
use std::alloc::{AllocError, Global};

/// A certificates file so far.
#[derive(Drop)]
pub enum Draft {
    /// The file without the closing bracket.
    Text(Vec<u8>),
    /// There will be no file, for this reason.
    Refused(Unwritten),
}

/// Returns the draft `begun` with `certificate` appended, or a refused draft.
fn longer(alloc: Global, begun: Vec<u8>, certificate: &Certificate) -> Draft
    ensures { (cs : List Shown) → IsBegun begun.items cs → IsDraft result (cs ++ certificate.now ∷ []) }
{
    let mut text = begun;
    match put_listed(alloc, &mut text, Some(limits::FILE_BYTES), certificate) {
        Ok(()) if text.len() < limits::FILE_BYTES => Draft::Text(text),
        Ok(()) => Draft::Refused(Unwritten::TooLong),
        Err(why) => Draft::Refused(why),
    }
}

/// Appends the closing bracket. Fails only if an allocation fails.
fn closed(begun: Vec<u8>) -> Result<Vec<u8>, AllocError>
    ensures { IfOk result (λ text. text.items ≡ begun.items ++ 93 ∷ []) }
{
    let mut text = begun;
    text.push(b']')?;
    Ok(text)
}

impl Draft {
    /// Returns the draft of a file without certificates.
    pub fn new(alloc: Global) -> Draft
        ensures { IsDraft result [] }
    {
        let mut text = Vec::new(alloc);
        match text.push(b'[') {
            Ok(()) => Draft::Text(text),
            Err(_) => Draft::Refused(Unwritten::Memory),
        }
    }

    /// Appends `certificate`.
    /// The draft becomes [`Draft::Refused`] if it grows past 16,777,216 bytes, if a text is not UTF-8, or if an allocation fails.
    pub fn with_certificate(self, alloc: Global, certificate: &Certificate) -> Draft
        ensures { (cs : List Shown) → IsDraft self cs → IsDraft result (cs ++ certificate.now ∷ []) }
    {
        match self {
            Draft::Text(text) => longer(alloc, text, certificate),
            Draft::Refused(why) => Draft::Refused(why),
        }
    }

    /// Returns the whole file, or why there is none.
    pub fn finished(self) -> Result<Vec<u8>, Unwritten>
        ensures { (cs : List Shown) → IsDraft self cs → MatchResult result (λ text. IsFile text.items cs) (λ why. HasNoFile why cs) }
    {
        match self {
            Draft::Text(text) => Ok(closed(text)?),
            Draft::Refused(why) => Err(why),
        }
    }
}
