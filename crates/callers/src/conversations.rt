//! Bytes fed to an engine, and its answer taken.

ghost use Rattle.std.specs.Prelude.{◌≡◌, OnOk, OnErr};
ghost use Rattle.callers.specs.Conversations.{Answers, PerformsAll};

use runs::Machine;
use std::alloc::{AllocError, Global};

/// Performs each complete command of connection `c`, until the connection is paused or over.
/// Fails only if an allocation fails; the commands that were not performed are still to come.
fn perform_all<M: Machine>(alloc: Global, machine: &mut M, c: u64) -> Result<(), AllocError>
    ensures { OnOk result (PerformsAll (M.world machine.old) c (M.world machine.new)) }
{
    'turns: while let Some(_notes) = machine.turn(alloc, c)? {}
    Ok(())
}

/// Feeds `bytes` to connection `c`, performs each command that they complete, and appends to `out` all that waits for the client.
/// Fails only if an allocation fails; `out` is then as before, and the next call goes on.
pub fn answer<M: Machine>(
    alloc: Global,
    machine: &mut M,
    c: u64,
    bytes: &[u8],
    out: &mut Vec<u8>,
) -> Result<(), AllocError>
    ensures answered { OnOk result (Answers (M.world machine.old) c bytes.now out.old.items out.new.items (M.world machine.new)) }
    ensures kept { OnErr result (out.new.items ≡ out.old.items) }
{
    machine.feed(alloc, c, bytes)?;
    perform_all(alloc, machine, c)?;
    let count = machine.output(c).len();
    out.extend_from_slice(machine.output(c))?;
    machine.sent(c, count as u64);
    Ok(())
}
