//! Acknowledges, rejects and recovers deliveries. Source: AMQP 0-9-1, basic.ack, basic.reject and
//! basic.recover; RabbitMQ, basic.nack and "Dead Letter Exchanges".

ghost use Rattle.std.specs.Prelude.{◌≡◌, true, false, IfOk, OnOk, OnErr};
ghost use Rattle.model.specs.Step as said;
ghost use Rattle.model.specs.declared.methods.Method.TheVariants.{BasicAck, BasicNack, BasicRecover};
ghost use Rattle.channels.specs.Placed.{IsPlaced};
ghost use Rattle.commands.specs.Judged.{refused_by};
ghost use Rattle.replies.specs.Sent.{AreAddressed};
ghost use Rattle.commands.specs.Commands.{CanCommand, CommandsPlain, RequeuesHere, WantsNone, seen};

use crate::refusals::{Refusal, Stop, check_implemented, check_settling};
use channels::Channel;
use depot::Depot;
use model::{Ack, ChannelId, Nack, Reject};
use replies::{Step, recover_ok};
use std::alloc::Global;

/// Acknowledges the deliveries that the tag settles: their messages leave their queues. Fails only if the tag is refused or an allocation fails;
/// nothing has changed then.
pub(crate) fn ack(
    alloc: Global,
    id: ChannelId,
    channel: &mut Channel,
    depot: &mut Depot,
    ack: &Ack,
) -> Result<Step, Stop>
    requires { CanCommand id.connection id.number depot.old channel.old }
    // What the result means, and that all that is sent is for this connection.
    ensures commands { CommandsPlain id.connection id.number depot.old channel.old (BasicAck ack.now) result depot.new channel.new }
    ensures addressed { IfOk result (λ s. AreAddressed id.connection s.sends.items) }
    // The frame; a failure changes nothing.
    ensures topology { depot.new.topology ≡ depot.old.topology }
    ensures in_range { IsPlaced depot.old.topology channel.new }
    ensures err { OnErr result ((depot.new ≡ depot.old) × (channel.new ≡ channel.old)) }
{
    let span = check_settling(channel, ack.delivery_tag, ack.multiple)?;
    let mut step = Step::noting(alloc, depot.notes(alloc));
    depot.ack(alloc, id, channel.at(span), &mut step.notes)?;
    channel.forget_span(span);
    Ok(step)
}

/// Requeues the deliveries that `tag` settles: each message is ready again in its place. Fails only if the tag is refused. Never allocates.
fn requeue(
    id: ChannelId,
    channel: &mut Channel,
    depot: &mut Depot,
    tag: u64,
    multiple: bool,
) -> Result<(), Refusal>
    requires { CanCommand id.connection id.number depot.old channel.old }
    // What the result means.
    ensures refusal { refused_by result ≡ said.refusal_of_settling (seen depot.old channel.old) tag multiple }
    ensures settles { OnOk result (RequeuesHere id.connection id.number depot.old channel.old tag multiple depot.new channel.new) }
    // The frame; a refusal changes nothing.
    ensures topology { depot.new.topology ≡ depot.old.topology }
    ensures in_range { IsPlaced depot.old.topology channel.new }
    ensures err { OnErr result ((depot.new ≡ depot.old) × (channel.new ≡ channel.old)) }
{
    let span = check_settling(channel, tag, multiple)?;
    depot.requeue(id, channel.at(span));
    channel.forget_span(span);
    Ok(())
}

/// Rejects the deliveries that the tag settles. If `requeue` is set they are requeued, which never allocates. Otherwise their messages leave their
/// queues in the order of tags, and are dead-lettered if the queue has a dead-letter exchange. Fails only if the tag is refused or an allocation
/// fails; nothing has changed then.
pub(crate) fn nack(
    alloc: Global,
    id: ChannelId,
    channel: &mut Channel,
    depot: &mut Depot,
    nack: &Nack,
) -> Result<Step, Stop>
    requires { CanCommand id.connection id.number depot.old channel.old }
    // What the result means, and that all that is sent is for this connection.
    ensures commands { CommandsPlain id.connection id.number depot.old channel.old (BasicNack nack.now) result depot.new channel.new }
    ensures addressed { IfOk result (λ s. AreAddressed id.connection s.sends.items) }
    // The frame; a failure changes nothing, and a requeueing nack never fails to allocate.
    ensures topology { depot.new.topology ≡ depot.old.topology }
    ensures in_range { IsPlaced depot.old.topology channel.new }
    ensures err { OnErr result ((depot.new ≡ depot.old) × (channel.new ≡ channel.old)) }
    ensures quiet { nack.now.requeue ≡ true → WantsNone result }
{
    if nack.requeue {
        requeue(id, channel, depot, nack.delivery_tag, nack.multiple)?;
        return Ok(Step::nothing(alloc));
    }
    let span = check_settling(channel, nack.delivery_tag, nack.multiple)?;
    let mut step = Step::noting(alloc, depot.notes(alloc));
    depot.reject(alloc, id, channel.at(span), &mut step.notes)?;
    channel.forget_span(span);
    Ok(step)
}

/// Converts a rejection of one message into a nack.
pub(crate) fn nack_of(reject: &Reject) -> Nack
    ensures { result ≡ record { delivery_tag = reject.now.delivery_tag; multiple = false; requeue = reject.now.requeue } }
{
    Nack {
        delivery_tag: reject.delivery_tag,
        multiple: false,
        requeue: reject.requeue,
    }
}

/// Requeues all unacknowledged deliveries of the channel, and replies with `basic.recover-ok`. Refuses a recover without `is_requeue`, which is
/// not implemented.
pub(crate) fn recover(
    alloc: Global,
    id: ChannelId,
    channel: &mut Channel,
    depot: &mut Depot,
    is_requeue: bool,
) -> Result<Step, Stop>
    requires { CanCommand id.connection id.number depot.old channel.old }
    // What the result means, and that all that is sent is for this connection.
    ensures commands { CommandsPlain id.connection id.number depot.old channel.old (BasicRecover is_requeue) result depot.new channel.new }
    ensures addressed { IfOk result (λ s. AreAddressed id.connection s.sends.items) }
    // The frame; a failure changes nothing.
    ensures topology { depot.new.topology ≡ depot.old.topology }
    ensures in_range { IsPlaced depot.old.topology channel.new }
    ensures err { OnErr result ((depot.new ≡ depot.old) × (channel.new ≡ channel.old)) }
{
    check_implemented(is_requeue)?;
    let step = Step::sending(alloc, recover_ok(id.connection, id.number))?;
    requeue(id, channel, depot, 0, true)?;
    Ok(step)
}
