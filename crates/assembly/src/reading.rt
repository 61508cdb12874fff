//! Reads frames until a command is complete.

ghost use Rattle.std.specs.Prelude.{◌≡◌, ◌≤◌};
ghost use Rattle.assembly.specs.Pending.{AreSpelledSoFar};
ghost use Rattle.assembly.specs.Onward.{YieldsCommand, has_command};
ghost use Rattle.assembly.specs.Unread.{TakesEight};

use crate::contents::Awaited;
use crate::faults::Fault;
use crate::frames::take_frame;
use crate::names::LastNames;
use crate::publishes::whole_publish;
use crate::unread::Unread;
use frame::{Read, read_frame};
use model::Command;
use std::alloc::Global;

/// Takes frames up to the end of a command. A frame that is a fault, or for which an allocation fails, is not taken.
///
/// The functions from here to a channel's content are inlined: each call of a function clears the slots of the values
/// that it moves. If the functions are inlined, this happens once a command instead of once a frame.
#[inline(always)]
pub(crate) fn next_command(
    alloc: Global,
    max: u32,
    keeps: bool,
    names: &mut LastNames,
    contents: &mut Vec<Awaited>,
    unread: &mut Unread,
) -> Result<Option<Command>, Fault>
    requires max { 4096 ≤ max }
    requires spelled { AreSpelledSoFar contents.old.items }
    ensures spelled { AreSpelledSoFar contents.new.items }
    ensures answers { YieldsCommand max keeps contents.old.items unread.old.bytes result contents.new.items unread.new.bytes }
{
    'frames: loop {
        let bytes = unread.bytes();
        match read_frame(bytes, max) {
            Read::More => return Ok(None),
            Read::Fault(code) => return Err(Fault::Broken(code)),
            Read::Whole(frame, size) => {
                let rest = &bytes[size..];
                if let Some((command, more)) = whole_publish(
                    alloc, max, keeps, names, contents, &frame, rest,
                ) {
                    unread.take(size + more);
                    return Ok(Some(command));
                }
                let taken = take_frame(alloc, keeps, names, contents, &frame);
                if taken.is_err() {
                    return taken;
                }
                unread.take(size);
                if is_whole(&taken) {
                    return taken;
                }
            }
        }
    }
}

/// Returns whether the frame just taken completes a command.
fn is_whole(taken: &Result<Option<Command>, Fault>) -> bool
    ensures { result ≡ has_command taken.now }
{
    matches!(taken, Ok(Some(_)))
}

/// Takes eight bytes, or returns `None` if there are fewer.
pub(crate) fn take_eight(unread: &mut Unread) -> Option<[u8; 8]>
    ensures { TakesEight unread.old result unread.new }
{
    let bytes = *unread.bytes().first_chunk::<8>()?;
    unread.take(8);
    Some(bytes)
}
