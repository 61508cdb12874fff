//! Decides on basic.consume. Source: AMQP 0-9-1, basic.consume.

ghost use Rattle.std.specs.Prelude.{◌≡◌, ◌||◌, [], List, not, IfOk};
ghost use Rattle.std.specs.Str.{bytes_eq};
ghost use Rattle.model.specs.Words.{Text as Name};
ghost use Rattle.model.specs.Step as said;
ghost use Rattle.channels.specs.Open.{open_in};
ghost use Rattle.commands.specs.Judged.{refused_by, IsQueueIndex};

use crate::refusals::{Refusal, check_queue};
use channels::Channel;
use exchange_graph::Topology;
use model::Consume;

/// Returns whether a consume asks to be the only consumer, not to get messages of its own connection, or has arguments: none of that is
/// implemented.
fn asks_more(consume: &Consume) -> bool
    ensures { result ≡ (consume.now.exclusive || consume.now.no_local || not (bytes_eq consume.now.arguments [])) }
{
    consume.exclusive || consume.no_local || consume.arguments.len() > 0
}

/// Refuses a consume that asks for what is not implemented.
fn check_asking(consume: &Consume) -> Result<(), Refusal>
    ensures { refused_by result ≡ said.refusal_of_asking consume.now }
{
    if asks_more(consume) {
        Err(Refusal::Connection(540))
    } else {
        Ok(())
    }
}

/// Refuses a consume if the channel can't have this consumer.
fn check_consumer(channel: &Channel, consume: &Consume) -> Result<(), Refusal>
    ensures { (names : List Name) → refused_by result ≡ said.refusal_of_consumer (open_in names channel.now) consume.now }
{
    match channel.refusal(consume) {
        Some(why) => Err(Refusal::from(why)),
        None => Ok(()),
    }
}

/// Refuses a consume if the queue doesn't exist, if it asks for what is not implemented, or if the channel can't have this consumer, in this
/// order. Returns the index of the queue.
pub fn check_consume(
    topology: &Topology,
    channel: &Channel,
    consume: &Consume,
) -> Result<usize, Refusal>
    ensures index { IfOk result (IsQueueIndex topology.now consume.now.queue) }
    ensures refusal { (names : List Name) → refused_by result ≡ said.refusal_of_consume topology.now (open_in names channel.now) consume.now }
{
    let place = check_queue(topology, &consume.queue)?;
    check_asking(consume)?;
    check_consumer(channel, consume)?;
    Ok(place)
}
