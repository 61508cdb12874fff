//! Why a stream has no next command.

ghost use Rattle.std.specs.Prelude.{◌≡◌, ℕ, List};
ghost use Rattle.assembly.specs.Faults.{IsFault, RefusesMethod, RefusesSize, RefusesHeader};

use std::alloc::AllocError;
use thiserror::Error;

/// Why [`crate::Stream::next`] returned no command though bytes are there.
#[derive(Clone, Copy, PartialEq, Eq, Debug, Drop, Error)]
pub enum Fault {
    /// The bytes break the rules of the wire. The number is the reply code.
    #[error("the bytes break the wire's rules: reply code {0}")]
    Broken(u16),
    /// An allocation failed. Nothing is lost: the call can be repeated.
    #[error("out of memory")]
    Memory,
}

impl From<AllocError> for Fault {
    ghost use Rattle.std.specs.Prelude.{◌≡◌};
    ghost use Rattle.assembly.specs.declared.faults.Fault.TheVariants.{Memory};

    ghost from_gives = { λ _ e. e ≡ Memory };

    fn from(_e: AllocError) -> Fault {
        Fault::Memory
    }
}

/// Converts a method's decoding error into the stream's fault, by reply code.
pub(crate) fn of_method(refusal: methods::BadMethod) -> Fault
    ensures { (payload : List ℕ) → RefusesMethod payload refusal result }
{
    match refusal {
        methods::BadMethod::FrameError => Fault::Broken(501),
        methods::BadMethod::SyntaxError => Fault::Broken(502),
        methods::BadMethod::CommandInvalid => Fault::Broken(503),
        methods::BadMethod::NotImplemented => Fault::Broken(540),
        methods::BadMethod::Memory => Fault::Memory,
    }
}

/// Converts an error of a header's declared size into the stream's fault: always 501.
pub(crate) fn of_size(_refusal: headers::BadHeader) -> Fault
    ensures { (payload : List ℕ) → RefusesSize payload _refusal result }
{
    Fault::Broken(501)
}

/// Converts a header's decoding error into the stream's fault, by reply code.
pub(crate) fn of_header(refusal: headers::BadHeader) -> Fault
    ensures { (payload : List ℕ) → RefusesHeader payload refusal result }
{
    match refusal {
        headers::BadHeader::FrameError => Fault::Broken(501),
        headers::BadHeader::SyntaxError => Fault::Broken(502),
        headers::BadHeader::Memory => Fault::Memory,
    }
}
