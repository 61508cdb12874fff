//! Performs a command on an open channel. Its connection and its channel were looked up before.

ghost use Rattle.std.specs.Prelude.{◌≡◌, ℕ, true};
ghost use Rattle.channels.specs.Placed.{IsPlaced};
ghost use Rattle.commands.specs.Judged.{is_requeueing, opens_or_closes};
ghost use Rattle.commands.specs.Commands.{CanCommand, AnswersHere, AnswersUnopened, UnlessPerformed, IsNotPerformed, IsAddressedBy, WantsNone, HasSpelling};
ghost use Rattle.commands.specs.Commands.{done_of, left_of};

mod asking;
mod consuming;
mod declaring;
mod flowing;
mod getting;
mod limiting;
mod publishing;
mod purging;
mod settlements;

pub(crate) use crate::commands::asking::Left;
use crate::commands::asking::{asked_queue, on_closed, on_zero, while_closing};
use crate::commands::consuming::{cancel, consume};
use crate::commands::declaring::find_exchange;
use crate::commands::flowing::flow;
use crate::commands::getting::get;
use crate::commands::limiting::limit;
use crate::commands::publishing::{publish, select};
use crate::commands::purging::purge;
use crate::commands::settlements::{ack, nack, nack_of, recover};
use crate::refusals::{Refusal, Stop, check_number, refusal_of_other};
use channels::Channel;
use depot::Depot;
use model::{ChannelId, Content, Method};
use replies::Step;
use std::alloc::Global;

/// The outcome of a command that is not refused.
#[derive(Drop)]
pub(crate) enum Done<'a> {
    /// The command was performed.
    Performed(Step),
    /// The command asks for something that needs more than its channel, and is still to be done.
    Left(Left<'a>),
}

/// Converts the outcome of a command that is performed on its channel alone.
fn performed<'a>(outcome: Result<Step, Stop>) -> Result<Done<'a>, Stop>
    ensures { result ≡ done_of outcome }
{
    match outcome {
        Ok(step) => Ok(Done::Performed(step)),
        Err(stop) => Err(stop),
    }
}

/// Converts the decision on a command that needs more than its channel.
fn left<'a>(asked: Result<Left<'a>, Refusal>) -> Result<Done<'a>, Stop>
    ensures { result ≡ left_of asked.entry }
{
    match asked {
        Ok(left) => Ok(Done::Left(left)),
        Err(refusal) => Err(Stop::Refused(refusal)),
    }
}

/// Performs a command on an open channel; `channel_max` is the connection's greatest channel number. A channel that awaits close-ok ignores all
/// but a close and close-ok. Commands that open or close something are not performed here, but returned as [`Done::Left`].
pub(crate) fn on_channel<'a>(
    alloc: Global,
    id: ChannelId,
    channel_max: u16,
    channel: &mut Channel,
    depot: &mut Depot,
    method: &'a Method,
    content: &Option<Content>,
) -> Result<Done<'a>, Stop>
    requires { CanCommand id.connection id.number depot.old channel.old }
    // What the result means, and that all that is sent is for this connection.
    ensures answers { AnswersHere channel_max id.connection id.number depot.old channel.old method.now content.now result depot.new channel.new }
    ensures addressed { HasSpelling depot.old method.now → IsAddressedBy id.connection result }
    // The frame; a command that was not performed changes nothing.
    ensures topology { depot.new.topology ≡ depot.old.topology }
    ensures in_range { IsPlaced depot.old.topology channel.new }
    ensures kept { UnlessPerformed result ((depot.new ≡ depot.old) × (channel.new ≡ channel.old)) }
    // A rejection that requeues never fails to allocate, and nothing is opened or closed here.
    ensures quiet { is_requeueing method.now ≡ true → WantsNone result }
    ensures elsewhere { opens_or_closes method.now ≡ true → IsNotPerformed result }
{
    if channel.is_closing() {
        return left(while_closing(method));
    }
    if id.number == 0 {
        return left(on_zero(method));
    }
    check_number(channel_max, id.number, method)?;
    match method {
        Method::ChannelFlow { active } => performed(flow(alloc, id, *active)),
        Method::ChannelClose(_) => Ok(Done::Left(Left::AnswerClose)),
        Method::ExchangeDeclare(declare) => performed(find_exchange(alloc, id, depot, declare)),
        Method::QueueDeclare(declare) => left(asked_queue(depot.topology(), declare)),
        Method::QueuePurge(purged) => performed(purge(alloc, id, depot, purged)),
        Method::BasicQos(qos) => performed(limit(alloc, id, channel, qos)),
        Method::BasicConsume(asked) => performed(consume(alloc, id, channel, depot, asked)),
        Method::BasicCancel(asked) => performed(cancel(alloc, id, channel, asked)),
        Method::BasicPublish(published) => {
            performed(publish(alloc, id, channel, depot, published, content))
        }
        Method::BasicGet(asked) => performed(get(alloc, id, channel, depot, asked)),
        Method::BasicAck(settled) => performed(ack(alloc, id, channel, depot, settled)),
        Method::BasicReject(settled) => {
            performed(nack(alloc, id, channel, depot, &nack_of(settled)))
        }
        Method::BasicNack(settled) => performed(nack(alloc, id, channel, depot, settled)),
        Method::BasicRecover { requeue } => {
            performed(recover(alloc, id, channel, depot, *requeue))
        }
        Method::ConfirmSelect { no_wait } => performed(select(alloc, id, channel, *no_wait)),
        _ => Err(Stop::Refused(refusal_of_other(method))),
    }
}

/// Decides on a command on a channel that is not open; `channel_max` is the connection's greatest channel number. On channel 0 only a close of
/// the connection is known, and any other channel can only be opened.
pub(crate) fn on_none(channel_max: u16, number: u16, method: &Method) -> Result<Done<'_>, Stop>
    ensures answers { AnswersUnopened channel_max number method.now result }
    ensures addressed { (c : ℕ) → IsAddressedBy c result }
    ensures quiet { WantsNone result }
    ensures elsewhere { IsNotPerformed result }
{
    if number == 0 {
        return left(on_zero(method));
    }
    check_number(channel_max, number, method)?;
    left(on_closed(method))
}
