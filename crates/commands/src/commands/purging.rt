//! Purges queues. Source: AMQP 0-9-1, queue.purge.

ghost use Rattle.std.specs.Prelude.{◌≡◌, IfOk, OnErr};
ghost use Rattle.model.specs.declared.methods.Method.TheVariants.{QueuePurge};
ghost use Rattle.replies.specs.Sent.{AreAddressed};
ghost use Rattle.commands.specs.Commands.{CommandsOnQueues};

use crate::refusals::{Stop, check_queue};
use depot::Depot;
use model::{ChannelId, Purge};
use replies::{Step, answer_purge};
use std::alloc::Global;

/// Removes the ready messages of a queue, in the order in which they arrived, with a note for each, and replies with `queue.purge-ok` and their
/// number unless `no_wait` is set. Fails only if it is refused or an allocation fails; nothing has changed then.
pub(crate) fn purge(
    alloc: Global,
    id: ChannelId,
    depot: &mut Depot,
    purge: &Purge,
) -> Result<Step, Stop>
    ensures commands { CommandsOnQueues id.connection id.number depot.old (QueuePurge purge.now) result depot.new }
    ensures addressed { IfOk result (λ s. AreAddressed id.connection s.sends.items) }
    ensures topology { depot.new.topology ≡ depot.old.topology }
    ensures err { OnErr result (depot.new ≡ depot.old) }
{
    let place = check_queue(depot.topology(), &purge.queue)?;
    let count = depot.ready_at(place);
    let mut step = answer_purge(alloc, id.connection, id.number, purge.no_wait, count)?;
    step.notes = depot.notes(alloc);
    depot.ghost_is_named(place);
    depot.purge_at(place, &mut step.notes)?;
    Ok(step)
}
