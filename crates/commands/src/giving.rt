//! Gives messages out, to gets and to consumers.

ghost use Rattle.std.specs.Prelude.{◌≡◌, ◌<◌, true, IsSome, OnOk, OnErr, length};
ghost use Rattle.model.specs.Prefetch.{has_tag_left};
ghost use Rattle.model.specs.Deliveries.{first_ready};
ghost use Rattle.depot.specs.Store.{queue_at};
ghost use Rattle.channels.specs.Placed.{IsPlaced};
ghost use Rattle.commands.specs.Commands.{CanCommand, GivesHere, NotesGiving};

use channels::Channel;
use depot::{Depot, Giving};
use model::{ChannelId, Holder, Taker};
use notes::Notes;
use std::alloc::AllocError;

/// Gives the first ready message of the queue at `index` out under the channel's next delivery tag. If `no_ack` is set it leaves the queue,
/// and that is noted; otherwise it is held there. Fails only if an allocation fails; nothing has changed then.
pub(crate) fn give_out(
    id: ChannelId,
    channel: &mut Channel,
    depot: &mut Depot,
    index: usize,
    by: Taker,
    no_ack: bool,
    notes: &mut Notes,
) -> Result<(), AllocError>
    // What the caller knows: there is a ready message, and a delivery tag is left.
    requires can { CanCommand id.connection id.number depot.old channel.old }
    requires within { index < length depot.old.topology.queues }
    requires left { has_tag_left channel.old.given.next_tag ≡ true }
    requires ready { IsSome (first_ready (queue_at depot.old index)) }
    // The promise, and what is noted.
    ensures gives { OnOk result (GivesHere id.connection id.number depot.old channel.old no_ack index by depot.new channel.new) }
    ensures notes { OnOk result (NotesGiving depot.old index no_ack notes.old.items notes.new.items) }
    // The frame; a failure changes nothing but the capacity of `notes`.
    ensures topology { depot.new.topology ≡ depot.old.topology }
    ensures in_range { IsPlaced depot.old.topology channel.new }
    ensures err { OnErr result ((depot.new ≡ depot.old) × (channel.new ≡ channel.old)) }
{
    depot.ghost_is_named(index);
    if no_ack {
        let name = depot.topology().queue(index).name.clone()?;
        notes.reserve_exact(1)?;
        depot.take_at(index, Giving::Out(name), notes);
        channel.give_settled();
        return Ok(());
    }
    channel.reserve(1)?;
    let holder = Holder {
        connection: id.connection,
        channel: id.number,
        tag: channel.next_tag(),
        by,
    };
    let Some(arrival) = depot.take_at(index, Giving::Held(holder), notes) else {
        return Ok(());
    };
    channel.give(index, arrival, by);
    Ok(())
}
