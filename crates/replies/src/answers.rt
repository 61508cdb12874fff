//! Builds replies without content, and confirms.

ghost use Rattle.std.specs.Prelude.{◌≡◌, ◌<◌, [], true, length};
ghost use Rattle.model.specs.Deliveries.{written_count};
ghost use Rattle.model.specs.Sending.{IsAddressed};
ghost use Rattle.model.specs.Step as said;
ghost use Rattle.model.specs.declared.methods.Method.TheVariants as seen;

use crate::closes::reply;
use model::{Ack, Answer, Method, Nack, QueueDeclared, Send, Text};

/// Returns `count` as a reply writes it in 32 bits: at most 2^32 - 1.
pub(crate) fn written(count: usize) -> u32
    ensures { result ≡ written_count count }
{
    if count <= u32::MAX as usize {
        count as u32
    } else {
        u32::MAX
    }
}

/// Builds `channel.open-ok`.
pub fn open_ok(connection: u64, channel: u16) -> Send
    ensures send { result ≡ said.reply connection channel (seen.ChannelOpenOk []) }
    ensures addressed { IsAddressed connection result }
{
    reply(
        connection,
        channel,
        Method::ChannelOpenOk {
            reserved: Text::empty(),
        },
    )
}

/// Builds `channel.flow-ok` with `active` set: the flow is not stopped.
pub fn flow_ok(connection: u64, channel: u16) -> Send
    ensures send { result ≡ said.reply connection channel (seen.ChannelFlowOk true) }
    ensures addressed { IsAddressed connection result }
{
    reply(connection, channel, Method::ChannelFlowOk { active: true })
}

/// Builds `exchange.declare-ok`.
pub fn exchange_ok(connection: u64, channel: u16) -> Send
    ensures send { result ≡ said.reply connection channel seen.ExchangeDeclareOk }
    ensures addressed { IsAddressed connection result }
{
    reply(connection, channel, Method::ExchangeDeclareOk)
}

/// Builds `confirm.select-ok`.
pub(crate) fn select_ok(connection: u64, channel: u16) -> Send
    ensures send { result ≡ said.reply connection channel seen.ConfirmSelectOk }
    ensures addressed { IsAddressed connection result }
{
    reply(connection, channel, Method::ConfirmSelectOk)
}

/// Builds `queue.purge-ok` with the number of messages removed, capped at 2^32 - 1.
pub(crate) fn purge_ok(connection: u64, channel: u16, count: usize) -> Send
    ensures send { result ≡ said.reply connection channel (seen.QueuePurgeOk (written_count count)) }
    ensures addressed { IsAddressed connection result }
{
    let message_count = written(count);
    reply(connection, channel, Method::QueuePurgeOk { message_count })
}

/// Builds `queue.declare-ok` for the queue named `queue`, with its numbers of ready messages and of consumers, each capped at 2^32 - 1.
pub(crate) fn queue_ok(
    connection: u64,
    channel: u16,
    queue: Text,
    ready: usize,
    consumers: usize,
) -> Send
    ensures send { result ≡ said.reply connection channel (said.queue_declared queue ready consumers) }
    ensures addressed { length queue < 256 → IsAddressed connection result }
{
    let declared = QueueDeclared {
        queue,
        message_count: written(ready),
        consumer_count: written(consumers),
    };
    reply(connection, channel, Method::QueueDeclareOk(declared))
}

/// Builds `basic.consume-ok` for the consumer tag `consumer_tag`.
pub(crate) fn consume_ok(connection: u64, channel: u16, consumer_tag: Text) -> Send
    ensures send { result ≡ said.reply connection channel (seen.BasicConsumeOk consumer_tag) }
    ensures addressed { length consumer_tag < 256 → IsAddressed connection result }
{
    reply(connection, channel, Method::BasicConsumeOk { consumer_tag })
}

/// Builds `basic.cancel-ok` for the consumer tag `consumer_tag`.
pub(crate) fn cancel_ok(connection: u64, channel: u16, consumer_tag: Text) -> Send
    ensures send { result ≡ said.reply connection channel (seen.BasicCancelOk consumer_tag) }
    ensures addressed { length consumer_tag < 256 → IsAddressed connection result }
{
    reply(connection, channel, Method::BasicCancelOk { consumer_tag })
}

/// Builds `basic.qos-ok`.
pub fn qos_ok(connection: u64, channel: u16) -> Send
    ensures send { result ≡ said.reply connection channel seen.BasicQosOk }
    ensures addressed { IsAddressed connection result }
{
    reply(connection, channel, Method::BasicQosOk)
}

/// Builds `basic.recover-ok`.
pub fn recover_ok(connection: u64, channel: u16) -> Send
    ensures send { result ≡ said.reply connection channel seen.BasicRecoverOk }
    ensures addressed { IsAddressed connection result }
{
    reply(connection, channel, Method::BasicRecoverOk)
}

/// Returns the confirm of a publish: nack if a routed queue was full, otherwise ack.
pub(crate) fn answer_of(is_some_full: bool) -> Answer
    ensures { result ≡ said.answer_of is_some_full }
{
    if is_some_full {
        Answer::Nack
    } else {
        Answer::Ack
    }
}

/// Builds `basic.ack` or `basic.nack` for the publish with confirm number `number`, and for no other.
pub(crate) fn confirm(connection: u64, channel: u16, answer: Answer, number: u64) -> Send
    ensures send { result ≡ said.reply connection channel (said.confirm_method answer number) }
    ensures addressed { IsAddressed connection result }
{
    let method = match answer {
        Answer::Ack => Method::BasicAck(Ack {
            delivery_tag: number,
            multiple: false,
        }),
        Answer::Nack => Method::BasicNack(Nack {
            delivery_tag: number,
            multiple: false,
            requeue: false,
        }),
    };
    reply(connection, channel, method)
}

/// Builds `basic.get-empty`.
pub fn get_empty(connection: u64, channel: u16) -> Send
    ensures send { result ≡ said.reply connection channel (seen.BasicGetEmpty []) }
    ensures addressed { IsAddressed connection result }
{
    reply(
        connection,
        channel,
        Method::BasicGetEmpty {
            reserved: Text::empty(),
        },
    )
}
