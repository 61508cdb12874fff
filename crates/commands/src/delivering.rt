//! Delivers a message to a consumer, on the consumer's channel. Source: AMQP 0-9-1, basic.deliver.

ghost use Rattle.std.specs.Prelude.{◌≡◌, [], IfOk, OnErr};
ghost use Rattle.channels.specs.Placed.{IsPlaced};
ghost use Rattle.commands.specs.Commands.{AddressesHere, CanCommand, DeliversHere};

use crate::giving::give_out;
use crate::picks::Pick;
use channels::Channel;
use depot::Depot;
use model::{ChannelId, Taker};
use replies::{Step, deliver};
use std::alloc::{AllocError, Global};

/// Delivers the first ready message of the consumer's queue, if a delivery to `pick` can be made; otherwise sends and changes nothing. The message
/// leaves the queue if the consumer needs no acknowledgement.
/// Fails only if an allocation fails; nothing has changed then.
pub(crate) fn deliver_on(
    alloc: Global,
    pick: Pick,
    channel: &mut Channel,
    depot: &mut Depot,
) -> Result<Step, AllocError>
    requires { CanCommand pick.connection pick.channel depot.old channel.old }
    // The promise: this delivery, whose send goes to the consumer's connection, or nothing.
    ensures ok { IfOk result (λ s. DeliversHere pick depot.old channel.old s.sends.items s.notes.items depot.new channel.new) }
    ensures addressed { IfOk result (λ s. AddressesHere pick depot.old channel.old s.sends.items) }
    ensures none { IfOk result (λ s. s.sends.items ≡ [] → (depot.new ≡ depot.old) × (channel.new ≡ channel.old)) }
    // The frame; a failure changes nothing.
    ensures topology { depot.new.topology ≡ depot.old.topology }
    ensures in_range { IsPlaced depot.old.topology channel.new }
    ensures err { OnErr result ((depot.new ≡ depot.old) × (channel.new ≡ channel.old)) }
{
    let Some(consumer) = channel.taker(pick.number) else {
        return Ok(Step::nothing(alloc));
    };
    let place = consumer.queue;
    let no_ack = consumer.no_ack;
    depot.ghost_is_named(place);
    let Some(entry) = depot.first_ready_at(place) else {
        return Ok(Step::nothing(alloc));
    };
    let tag = channel.next_tag();
    let send = deliver(pick.connection, pick.channel, tag, &consumer.tag, entry)?;
    let mut step = Step::sending(alloc, send)?;
    step.notes = depot.notes(alloc);
    let id = ChannelId {
        connection: pick.connection,
        number: pick.channel,
    };
    let by = Taker::Consumer(pick.number);
    give_out(id, channel, depot, place, by, no_ack, &mut step.notes)?;
    Ok(step)
}
