//! Handles a whole frame: heartbeat, wrong channel, or the frame of a channel.

ghost use Rattle.std.specs.Prelude.{◌≡◌, ◌<◌, ◌≤◌, ℕ, IsTrue, vec_len, OnOk};
ghost use Rattle.model.specs.Commands;
ghost use Rattle.model.specs.Commands.{taken_heartbeat};
ghost use Rattle.model.specs.Commands.{is_on_wrong_channel as is_wrong};
ghost use Rattle.frame.specs.Reading.{seen};
ghost use Rattle.assembly.specs.Pending.{content_at, AreSpelledSoFar};
ghost use Rattle.assembly.specs.Taking.{DoesAt, TakesAt, TakesWhole};

use crate::contents::Awaited;
use crate::faults::Fault;
use crate::names::LastNames;
use crate::taking::take_awaited;
use frame::Frame;
use model::Command;
use std::alloc::{AllocError, Global};

/// Handles a whole frame. Returns the command that it completes, or `None` if its channel awaits more.
#[inline(always)]
pub(crate) fn take_frame(
    alloc: Global,
    keeps: bool,
    names: &mut LastNames,
    contents: &mut Vec<Awaited>,
    frame: &Frame<'_>,
) -> Result<Option<Command>, Fault>
    requires { AreSpelledSoFar contents.old.items }
    ensures spelled { AreSpelledSoFar contents.new.items }
    ensures does { TakesWhole keeps (seen frame.now) contents.old.items result contents.new.items }
{
    if frame.kind == 8 {
        return take_heartbeat(frame);
    }
    if is_on_wrong_channel(frame) {
        return Err(Fault::Broken(504));
    }
    let channel = usize::from(frame.channel);
    reach(contents, channel)?;
    take_on_channel(alloc, keeps, names, contents, channel, frame)
}

/// Handles a heartbeat: one that is empty and on channel 0 has no effect, any other is a fault (501).
fn take_heartbeat(frame: &Frame<'_>) -> Result<Option<Command>, Fault>
    ensures { (old : ℕ → Commands.Pending) → DoesAt (λ t. t ≡ taken_heartbeat (old frame.now.channel) (seen frame.now)) frame.now.channel old result old }
{
    if frame.channel == 0 && frame.payload.is_empty() {
        Ok(None)
    } else {
        Err(Fault::Broken(501))
    }
}

/// Returns whether the channel number is above 255, or a header or body is on channel 0.
pub(crate) fn is_on_wrong_channel(frame: &Frame<'_>) -> bool
    ensures { result ≡ is_wrong (seen frame.now) }
{
    frame.channel > 255 || (frame.channel == 0 && frame.kind != 1)
}

/// Makes `contents` long enough for `channel`; the new channels await a method. Fails only if an allocation fails. In any case
/// each channel awaits what it did before.
fn reach(contents: &mut Vec<Awaited>, channel: usize) -> Result<(), AllocError>
    ensures reached { OnOk result (channel < vec_len contents.new) }
    ensures same { content_at contents.new.items ≡ content_at contents.old.items }
{
    'channels: while contents.len() <= channel {
        contents.push(Awaited::Nothing)?;
    }
    Ok(())
}

/// Handles a frame other than a heartbeat, on a channel that may have it.
#[inline(always)]
fn take_on_channel(
    alloc: Global,
    keeps: bool,
    names: &mut LastNames,
    contents: &mut Vec<Awaited>,
    channel: usize,
    frame: &Frame<'_>,
) -> Result<Option<Command>, Fault>
    requires reached { channel < vec_len contents.old }
    requires spelled { AreSpelledSoFar contents.old.items }
    ensures spelled { AreSpelledSoFar contents.new.items }
    ensures does { TakesAt keeps channel (seen frame.now) contents.old.items result contents.new.items }
{
    take_awaited(alloc, keeps, names, &mut contents[channel], frame)
}
