//! Counts and drops the bodies of contents that are too large or not kept.

ghost use Rattle.std.specs.Prelude.{◌≡◌, Bool};
ghost use Rattle.model.specs.Commands as said;
ghost use Rattle.model.specs.Commands.{taken_dropped};
ghost use Rattle.frame.specs.Reading.{seen};
ghost use Rattle.assembly.specs.Pending.{pending_of, IsSpelledSoFar, IsDropped};
ghost use Rattle.assembly.specs.Taking.{TakesEffect, TakesFrame};

use crate::contents::{Awaited, Dropping};
use crate::faults::Fault;
use frame::Frame;
use model::{Command, limits};

/// The largest payload of a header that is accepted, in bytes.
const MOST_HEADER: usize = 3_400;

/// Returns whether a content is too large. `payload` is the payload of its header frame, which declares a body of `size` bytes.
pub(crate) fn is_too_large(payload: &[u8], size: u64) -> bool
    ensures { result ≡ said.is_too_large payload.now size }
{
    size > limits::BODY_BYTES || payload.len() > MOST_HEADER
}

/// Handles a dropped body of `size` bytes of which `count` have come.
///
/// More than `size` is a fault (501). At `size` the command is `TooLarge`. Below it the channel awaits more.
pub(crate) fn drop_begun(
    pending: &mut Awaited,
    channel: u16,
    size: u64,
    count: u64,
) -> Result<Option<Command>, Fault>
    requires { IsSpelledSoFar pending.old }
    ensures spelled { IsSpelledSoFar pending.new }
    ensures does { TakesEffect (λ t. t ≡ taken_dropped channel size count) (pending_of pending.old) result (pending_of pending.new) }
{
    if count > size {
        return Err(Fault::Broken(501));
    }
    if count == size {
        *pending = Awaited::Nothing;
        return Ok(Some(Command::TooLarge { channel }));
    }
    *pending = Awaited::Drops(Dropping { size, count });
    Ok(None)
}

/// Counts and drops the piece of a body in `frame`, and then does what [`drop_begun`] does.
pub(crate) fn drop_piece(pending: &mut Awaited, frame: &Frame<'_>) -> Result<Option<Command>, Fault>
    requires dropped { IsDropped pending.old }
    requires spelled { IsSpelledSoFar pending.old }
    ensures spelled { IsSpelledSoFar pending.new }
    ensures does { (keeps : Bool) → TakesFrame keeps (seen frame.now) pending.old result pending.new }
{
    match pending {
        Awaited::Drops(dropping) => {
            let missing = dropping.size - dropping.count;
            let length = frame.payload.len() as u64;
            if length > missing {
                return Err(Fault::Broken(501));
            }
            if length < missing {
                dropping.count += length;
                return Ok(None);
            }
        }
        _ => unreachable!(),
    }
    *pending = Awaited::Nothing;
    let channel = frame.channel;
    Ok(Some(Command::TooLarge { channel }))
}
