//! Converts the system's answers into those of a wire.

ghost use Rattle.std.specs.Prelude.{◌≡◌, ◌<◌, ℕ, Ok, Err, true, false};
ghost use Rattle.std.specs.IoError.{error_kind};
ghost use Rattle.std.specs.declared.io.Error.{Error};
ghost use Rattle.serving.specs.declared.wire.Read.TheVariants as read;
ghost use Rattle.serving.specs.declared.wire.Write.TheVariants as write;
ghost use Rattle.sockets.specs.Answers.{IsLater};

use serving::{Read, Write};
use std::io::{self, ErrorKind};

/// Returns whether `error` only asks to try later: the call would have blocked, or a signal interrupted it.
pub(crate) fn is_later(error: &io::Error) -> bool
    ensures later { IsLater (error_kind error.now) → result ≡ true }
    ensures only { result ≡ true → IsLater (error_kind error.now) }
{
    matches!(error.kind(), ErrorKind::WouldBlock | ErrorKind::Interrupted)
}

/// Converts the system's answer to a read into a buffer of `room` bytes.
pub(crate) fn read_answer(answer: io::Result<usize>, room: usize) -> Read
    // all bytes that came are reported
    ensures got { (n : ℕ) → answer ≡ Ok n → 0 < n → result ≡ read.Got n }
    ensures only { (n : ℕ) → result ≡ read.Got n → answer ≡ Ok n }
    // an answer of 0 bytes is the end of the stream, unless the buffer is empty
    ensures end { answer ≡ Ok 0 → 0 < room → result ≡ read.End }
    ensures no_room { answer ≡ Ok 0 → room ≡ 0 → result ≡ read.Wait }
    // an error is a failure, unless it only asks to try later
    ensures wait { (e : Error) → answer ≡ Err e → IsLater (error_kind e) → result ≡ read.Wait }
    ensures failed { (e : Error) → answer ≡ Err e → (IsLater (error_kind e) → ⊥) → result ≡ read.Failed }
{
    match answer {
        Ok(0) if room > 0 => Read::End,
        Ok(0) => Read::Wait,
        Ok(count) => Read::Got(count),
        Err(error) if is_later(&error) => Read::Wait,
        Err(_) => Read::Failed,
    }
}

/// Converts the system's answer to a write.
pub(crate) fn write_answer(answer: io::Result<usize>) -> Write
    // exactly the bytes that were taken are reported
    ensures took { (n : ℕ) → answer ≡ Ok n → 0 < n → result ≡ write.Took n }
    ensures only { (n : ℕ) → result ≡ write.Took n → answer ≡ Ok n }
    ensures none { answer ≡ Ok 0 → result ≡ write.Wait }
    // an error is a failure, unless it only asks to try later
    ensures wait { (e : Error) → answer ≡ Err e → IsLater (error_kind e) → result ≡ write.Wait }
    ensures failed { (e : Error) → answer ≡ Err e → (IsLater (error_kind e) → ⊥) → result ≡ write.Failed }
{
    match answer {
        Ok(0) => Write::Wait,
        Ok(count) => Write::Took(count),
        Err(error) if is_later(&error) => Write::Wait,
        Err(_) => Write::Failed,
    }
}
