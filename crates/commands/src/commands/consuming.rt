//! Makes and cancels consumers. Source: AMQP 0-9-1, basic.consume and basic.cancel.

ghost use Rattle.std.specs.Prelude.{◌≡◌, IfOk, OnErr};
ghost use Rattle.model.specs.Grammar.{IsMethod};
ghost use Rattle.model.specs.Topology.{Topology};
ghost use Rattle.model.specs.declared.methods.Method.TheVariants.{BasicConsume, BasicCancel};
ghost use Rattle.channels.specs.Placed.{IsPlaced};
ghost use Rattle.replies.specs.Sent.{AreAddressed};
ghost use Rattle.commands.specs.Commands.{CommandsOnChannel, CommandsPlain};

use crate::refusals::{Stop, check_consume};
use channels::Channel;
use depot::Depot;
use model::{Cancel, ChannelId, Consume};
use replies::{Step, answer_cancel, answer_consume};
use std::alloc::Global;

/// Makes a consumer of the queue, and replies with `basic.consume-ok` and its tag unless `no_wait` is set. Fails only if it is refused or an
/// allocation fails; nothing has changed then.
pub(crate) fn consume(
    alloc: Global,
    id: ChannelId,
    channel: &mut Channel,
    depot: &Depot,
    consume: &Consume,
) -> Result<Step, Stop>
    requires { IsPlaced depot.now.topology channel.old }
    ensures commands { CommandsPlain id.connection id.number depot.now channel.old (BasicConsume consume.now) result depot.now channel.new }
    ensures addressed { IfOk result (λ s. IsMethod (BasicConsume consume.now) → AreAddressed id.connection s.sends.items) }
    ensures in_range { IsPlaced depot.now.topology channel.new }
    ensures err { OnErr result (channel.new ≡ channel.old) }
{
    let place = check_consume(depot.topology(), channel, consume)?;
    let mut step = Step::nothing(alloc);
    step.sends.reserve_exact(1)?;
    let tag = channel.consume(alloc, place, consume)?;
    channel.ghost_numbers_rise();
    answer_consume(&mut step, id.connection, id.number, consume.no_wait, tag);
    Ok(step)
}

/// Cancels the consumer with this tag, if any, and replies with `basic.cancel-ok` unless `no_wait` is set. Its unacknowledged messages stay
/// unacknowledged. Fails only if an allocation fails; nothing has changed then.
pub(crate) fn cancel(
    alloc: Global,
    id: ChannelId,
    channel: &mut Channel,
    cancel: &Cancel,
) -> Result<Step, Stop>
    ensures commands { CommandsOnChannel id.connection id.number channel.old (BasicCancel cancel.now) result channel.new }
    ensures addressed { IfOk result (λ s. IsMethod (BasicCancel cancel.now) → AreAddressed id.connection s.sends.items) }
    ensures in_range { (t : Topology) → IsPlaced t channel.old → IsPlaced t channel.new }
    ensures err { OnErr result (channel.new ≡ channel.old) }
{
    let step = answer_cancel(alloc, id.connection, id.number, cancel)?;
    channel.cancel(cancel.consumer_tag.as_bytes());
    Ok(step)
}
