//! Commands that need more than their channel. Source: AMQP 0-9-1, channel.open, channel.close,
//! connection.close, and queue.declare, "passive".

ghost use Rattle.std.specs.Prelude.{◌≡◌, Option, None, Some, true};
ghost use Rattle.model.specs.Broker.{Broker};
ghost use Rattle.model.specs.Broker.{Channel as Seen};
ghost use Rattle.model.specs.Step as said;
ghost use Rattle.model.specs.Topology.{Topology as Handed};
ghost use Rattle.model.specs.declared.methods.Method.TheVariants.{QueueDeclare as DeclaresQueue};
ghost use Rattle.commands.specs.Commands.{Asks};

use crate::refusals::{Refusal, check_queue_declare};
use exchange_graph::Topology;
use model::{Method, QueueDeclare};

/// What a command asks for that is not done on its channel alone. The command is not refused.
#[derive(Clone, Copy, Drop)]
pub(crate) enum Left<'a> {
    /// The client opens the channel.
    OpenChannel,
    /// The client closes the channel.
    AnswerClose,
    /// The client closes the channel, on which the server has sent a close already. The server still awaits close-ok.
    AnswerClosing,
    /// The client agrees to the server's close of the channel.
    EndChannel,
    /// The client closes the connection.
    CloseConnection,
    /// The client asks about the queue at this index, which exists. It gets a reply unless `no_wait` is set.
    FindQueue(usize, &'a QueueDeclare),
}

/// Decides on a method on a channel that awaits close-ok: it ignores all but a close and close-ok.
pub(crate) fn while_closing(method: &Method) -> Result<Left<'_>, Refusal>
    ensures { (t : Handed) (ch : Seen) → ch.is_closing ≡ true → Asks t (Some ch) method.now (said.refusal_while_closing method.now) result }
{
    match method {
        Method::ChannelClose(_) => Ok(Left::AnswerClosing),
        Method::ChannelCloseOk => Ok(Left::EndChannel),
        _ => Err(Refusal::Ignored),
    }
}

/// Decides on a method on channel 0: only a close of the connection is known.
pub(crate) fn on_zero(method: &Method) -> Result<Left<'_>, Refusal>
    ensures { (t : Handed) (ch : Option Seen) → Asks t ch method.now (said.refusal_on_zero method.now) result }
{
    match method {
        Method::ConnectionClose(_) => Ok(Left::CloseConnection),
        _ => Err(Refusal::Connection(503)),
    }
}

/// Decides on a method on a channel that is not open: it can only be opened.
pub(crate) fn on_closed(method: &Method) -> Result<Left<'_>, Refusal>
    ensures { (t : Handed) (b : Broker) → Asks t None method.now (said.refusal_on t b None method.now) result }
{
    match method {
        Method::ChannelOpen { .. } => Ok(Left::OpenChannel),
        _ => Err(Refusal::Connection(504)),
    }
}

/// Decides on a queue.declare on an open channel: it may only ask whether the queue exists.
pub(crate) fn asked_queue<'a>(
    topology: &Topology,
    declare: &'a QueueDeclare,
) -> Result<Left<'a>, Refusal>
    ensures { (ch : Seen) → Asks topology.now (Some ch) (DeclaresQueue declare.now) (said.refusal_of_queue_declare topology.now declare.now) result }
{
    let place = check_queue_declare(topology, declare)?;
    Ok(Left::FindQueue(place, declare))
}
