//! Answers basic.get. Source: AMQP 0-9-1, basic.get.

ghost use Rattle.std.specs.Prelude.{◌≡◌, IfOk, OnErr};
ghost use Rattle.model.specs.declared.methods.Method.TheVariants.{BasicGet};
ghost use Rattle.channels.specs.Placed.{IsPlaced};
ghost use Rattle.replies.specs.Sent.{AreAddressed};
ghost use Rattle.commands.specs.Commands.{CanCommand, CommandsPlain, HasSpelling};

use crate::giving::give_out;
use crate::refusals::{Stop, check_queue, check_tag};
use channels::Channel;
use depot::Depot;
use model::{ChannelId, Get, Taker};
use replies::{Step, get_empty, get_ok};
use std::alloc::Global;

/// Gives the first ready message of the queue out with `basic.get-ok`, or replies with `basic.get-empty`. The message leaves the queue if it needs
/// no acknowledgement. Fails only if it is refused or an allocation fails; nothing has changed then.
pub(crate) fn get(
    alloc: Global,
    id: ChannelId,
    channel: &mut Channel,
    depot: &mut Depot,
    get: &Get,
) -> Result<Step, Stop>
    requires { CanCommand id.connection id.number depot.old channel.old }
    // What the result means, and that all that is sent is for this connection.
    ensures commands { CommandsPlain id.connection id.number depot.old channel.old (BasicGet get.now) result depot.new channel.new }
    ensures addressed { IfOk result (λ s. HasSpelling depot.old (BasicGet get.now) → AreAddressed id.connection s.sends.items) }
    // The frame; a failure changes nothing.
    ensures topology { depot.new.topology ≡ depot.old.topology }
    ensures in_range { IsPlaced depot.old.topology channel.new }
    ensures err { OnErr result ((depot.new ≡ depot.old) × (channel.new ≡ channel.old)) }
{
    let place = check_queue(depot.topology(), &get.queue)?;
    depot.ghost_is_named(place);
    let remaining = depot.ready_at(place).saturating_sub(1);
    let Some(entry) = depot.first_ready_at(place) else {
        return Ok(Step::sending(alloc, get_empty(id.connection, id.number))?);
    };
    check_tag(channel)?;
    let tag = channel.next_tag();
    let send = get_ok(id.connection, id.number, tag, entry, remaining)?;
    let mut step = Step::sending(alloc, send)?;
    step.notes = depot.notes(alloc);
    give_out(
        id,
        channel,
        depot,
        place,
        Taker::Get,
        get.no_ack,
        &mut step.notes,
    )?;
    Ok(step)
}
