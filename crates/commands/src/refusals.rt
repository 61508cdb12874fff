//! Decides whether a command is refused, check by check. Nothing changes here, and nothing allocates.
//!
//! Source: AMQP 0-9-1, section 1.1, "reply-code", and the rules of its XML.

ghost use Rattle.std.specs.Prelude.{◌≡◌, List, Some, None, true, false, Option, IfOk, OnOk, option_map, if◌then◌else◌};
ghost use Rattle.std.specs.Option.{option_copied};
ghost use Rattle.model.specs.Words.{Text as Name};
ghost use Rattle.model.specs.Broker.{Broker};
ghost use Rattle.model.specs.Broker.{Channel as Seen};
ghost use Rattle.model.specs.Topology.{Topology as Handed};
ghost use Rattle.model.specs.Step as said;
ghost use Rattle.model.specs.Step.{Of_connection};
ghost use Rattle.model.specs.Prefetch.{has_tag_left};
ghost use Rattle.model.specs.declared.messages.Entry.{Entry};
ghost use Rattle.commands.specs.Judged.{refusal_seen, refused_by, refusal_of_number, is_taken, HasChannel, IsQueueIndex, JudgesConsume};
ghost use Rattle.channels.specs.Open.{open_in};
ghost use Rattle.channels.specs.RunningConnections.{limits_of, channel_seen};

mod consumers;
mod declares;
mod publishes;
mod settlements;

pub use crate::refusals::consumers::check_consume;
pub use crate::refusals::declares::{check_exchange, check_queue_declare};
pub use crate::refusals::publishes::check_publish;
pub use crate::refusals::settlements::check_settling;
use channels::{Channel, ConsumeError, ConsumerRefusal, RunningConnection};
use exchange_graph::Topology;
use model::{Consume, Method, Text};
use std::alloc::AllocError;

/// Why a command is not performed.
#[derive(Clone, Copy, Drop)]
pub enum Refusal {
    /// Nothing is done: the channel awaits close-ok.
    Ignored,
    /// The channel is closed with this reply code.
    Channel(u16),
    /// The connection is closed with this reply code.
    Connection(u16),
}

/// Why a command was not performed.
#[derive(Clone, Copy, Drop)]
pub enum Stop {
    /// It was refused.
    Refused(Refusal),
    /// An allocation failed.
    Memory,
}

impl From<Refusal> for Stop {
    ghost use Rattle.std.specs.Prelude.{◌≡◌};
    ghost use Rattle.commands.specs.declared.refusals.Stop.TheVariants.{Refused};

    ghost from_gives = { λ refusal stop. stop ≡ Refused refusal };

    fn from(refusal: Refusal) -> Stop {
        Stop::Refused(refusal)
    }
}

impl From<AllocError> for Stop {
    ghost use Rattle.std.specs.Prelude.{◌≡◌};
    ghost use Rattle.commands.specs.declared.refusals.Stop.TheVariants.{Memory};

    ghost from_gives = { λ _ stop. stop ≡ Memory };

    fn from(_: AllocError) -> Stop {
        Stop::Memory
    }
}

impl From<ConsumerRefusal> for Refusal {
    ghost use Rattle.std.specs.Prelude.{◌≡◌};
    ghost use Rattle.commands.specs.Judged.{refusal_by};

    ghost from_gives = { λ why refusal. refusal ≡ refusal_by why };

    fn from(why: ConsumerRefusal) -> Refusal {
        match why {
            ConsumerRefusal::InUse => Refusal::Connection(530),
            ConsumerRefusal::TooMany => Refusal::Connection(506),
            ConsumerRefusal::Spent => Refusal::Connection(541),
        }
    }
}

impl From<ConsumeError> for Stop {
    ghost use Rattle.std.specs.Prelude.{◌≡◌};
    ghost use Rattle.commands.specs.Judged.{stop_of};

    ghost from_gives = { λ why stop. stop ≡ stop_of why };

    fn from(why: ConsumeError) -> Stop {
        match why {
            ConsumeError::Refused(refusal) => Stop::Refused(Refusal::from(refusal)),
            ConsumeError::Memory => Stop::Memory,
        }
    }
}

/// Refuses what the server doesn't implement.
pub fn check_implemented(is_implemented: bool) -> Result<(), Refusal>
    ensures { refused_by result ≡ (if is_implemented then None else Some (Of_connection 540)) }
{
    if is_implemented {
        Ok(())
    } else {
        Err(Refusal::Connection(540))
    }
}

/// Returns the refusal of a method that no open channel performs: 540 if the server doesn't implement it.
pub fn refusal_of_other(method: &Method) -> Refusal
    requires { is_taken method.now ≡ false }
    ensures { (t : Handed) (b : Broker) (ch : Seen) → said.refusal_of t b ch method.now ≡ Some (refusal_seen result) }
{
    match method {
        Method::ChannelOpen { .. } => Refusal::Connection(504),
        Method::ExchangeDelete
        | Method::ExchangeBind
        | Method::ExchangeUnbind
        | Method::QueueBind
        | Method::QueueDelete
        | Method::QueueUnbind => Refusal::Channel(403),
        Method::ChannelCloseOk
        | Method::ChannelOpenOk { .. }
        | Method::ChannelFlowOk { .. }
        | Method::ExchangeDeclareOk
        | Method::QueueDeclareOk(_)
        | Method::QueuePurgeOk { .. }
        | Method::BasicQosOk
        | Method::BasicConsumeOk { .. }
        | Method::BasicCancelOk { .. }
        | Method::BasicReturn(_)
        | Method::BasicDeliver(_)
        | Method::BasicGetOk(_)
        | Method::BasicGetEmpty { .. }
        | Method::BasicRecoverOk
        | Method::ConfirmSelectOk => Refusal::Connection(503),
        _ => Refusal::Connection(540),
    }
}

/// Returns whether the method is of the connection class.
fn is_of_connection(method: &Method) -> bool
    ensures { result ≡ said.is_of_connection method.now }
{
    method.ids().class == 10
}

/// Refuses a method of the connection class on a channel other than 0, and a channel number above `channel_max`, the greatest that was
/// agreed on.
pub fn check_number(channel_max: u16, number: u16, method: &Method) -> Result<(), Refusal>
    ensures { refused_by result ≡ refusal_of_number channel_max number method.now }
{
    if is_of_connection(method) {
        return Err(Refusal::Connection(503));
    }
    if number > channel_max {
        return Err(Refusal::Connection(504));
    }
    Ok(())
}

/// Returns the index of the queue with this name. Refused with 404 if there is none.
pub fn check_queue(topology: &Topology, name: &Text) -> Result<usize, Refusal>
    ensures index { IfOk result (IsQueueIndex topology.now name.now) }
    ensures refusal { refused_by result ≡ said.refusal_in topology.now name.now }
{
    match topology.queue_at(name.as_bytes()) {
        Some(place) => Ok(place),
        None => Err(Refusal::Channel(404)),
    }
}

/// Refuses giving a message out if no delivery tag is left.
pub fn check_tag(channel: &Channel) -> Result<(), Refusal>
    ensures left { OnOk result (has_tag_left channel.now.given.next_tag ≡ true) }
    ensures refusal { (names : List Name) (e : Entry) → refused_by result ≡ said.refusal_of_tags (open_in names channel.now) (Some e) }
{
    if channel.has_tag_left() {
        Ok(())
    } else {
        Err(Refusal::Connection(541))
    }
}

/// Returns whether a close was sent on the channel and close-ok is awaited.
fn is_awaiting(channel: Option<&Channel>) -> bool
    ensures { (names : List Name) → result ≡ said.is_awaiting (option_map (open_in names) (option_copied channel.entry)) }
{
    match channel {
        None => false,
        Some(channel) => channel.is_closing(),
    }
}

/// Returns the refusal of a publish whose content is too large, on a running connection. An open channel is closed with 311.
pub fn judge_large(running: &RunningConnection, number: u16) -> Refusal
    ensures is { (names : List Name) → refusal_seen result ≡ said.refusal_of_large (limits_of running.now) number (channel_seen names running.now number) }
    ensures channel { (names : List Name) → HasChannel result (channel_seen names running.now number) }
{
    if is_awaiting(running.channel(number)) {
        return Refusal::Ignored;
    }
    if number == 0 {
        return Refusal::Connection(503);
    }
    if running.channel_max() < number {
        return Refusal::Connection(504);
    }
    match running.channel(number) {
        None => Refusal::Connection(504),
        Some(_) => Refusal::Channel(311),
    }
}

/// Returns the refusal of a consume on a running connection, if any.
pub fn judge_consume(
    topology: &Topology,
    running: &RunningConnection,
    number: u16,
    consume: &Consume,
) -> Option<Refusal>
    ensures { JudgesConsume topology.now running.now number consume.now result }
{
    if is_awaiting(running.channel(number)) {
        return Some(Refusal::Ignored);
    }
    if number == 0 {
        return Some(Refusal::Connection(503));
    }
    if running.channel_max() < number {
        return Some(Refusal::Connection(504));
    }
    match running.channel(number) {
        None => Some(Refusal::Connection(504)),
        Some(channel) => check_consume(topology, channel, consume).err(),
    }
}
