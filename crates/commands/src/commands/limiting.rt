//! Sets the limits of a channel. Source: AMQP 0-9-1, basic.qos; RabbitMQ, "Consumer Prefetch".

ghost use Rattle.std.specs.Prelude.{◌≡◌, IfOk, OnErr};
ghost use Rattle.model.specs.Topology.{Topology};
ghost use Rattle.model.specs.declared.methods.Method.TheVariants.{BasicQos};
ghost use Rattle.channels.specs.Placed.{IsPlaced};
ghost use Rattle.replies.specs.Sent.{AreAddressed};
ghost use Rattle.commands.specs.Commands.{CommandsOnChannel};

use crate::refusals::{Stop, check_implemented};
use channels::Channel;
use model::{ChannelId, Qos};
use replies::{Step, qos_ok};
use std::alloc::Global;

/// Sets the channel's prefetch as `qos` says, and replies with `basic.qos-ok`. Refuses a prefetch by the size of messages, which is not
/// implemented. Fails only if it is refused or an allocation fails; nothing has changed then.
pub(crate) fn limit(
    alloc: Global,
    id: ChannelId,
    channel: &mut Channel,
    qos: &Qos,
) -> Result<Step, Stop>
    ensures commands { CommandsOnChannel id.connection id.number channel.old (BasicQos qos.now) result channel.new }
    ensures addressed { IfOk result (λ s. AreAddressed id.connection s.sends.items) }
    ensures in_range { (t : Topology) → IsPlaced t channel.old → IsPlaced t channel.new }
    ensures err { OnErr result (channel.new ≡ channel.old) }
{
    check_implemented(qos.prefetch_size == 0)?;
    let step = Step::sending(alloc, qos_ok(id.connection, id.number))?;
    channel.limit(qos);
    Ok(step)
}
