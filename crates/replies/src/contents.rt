//! Builds sends of messages with their contents, whose bytes are shared.

ghost use Rattle.std.specs.Prelude.{◌≡◌, ◌<◌, length, IfOk, IfSome};
ghost use Rattle.model.specs.Grammar.{IsMethod};
ghost use Rattle.model.specs.Sending.{IsAddressed, IsCarried};
ghost use Rattle.model.specs.Step as said;
ghost use Rattle.model.specs.declared.methods.Method.TheVariants as seen;
ghost use Rattle.replies.specs.Sent as sent;

use crate::answers::written;
use model::{Content, Deliver, Entry, GetOk, Method, Publish, Return, Send, Text, reply_text};
use std::alloc::AllocError;

/// The reply code of a publish that is returned: no-route.
const NO_ROUTE: u16 = 312;

/// Builds `basic.return` for `publish` with its `content`, whose bytes are shared. Fails only if an allocation fails.
fn return_of(
    connection: u64,
    channel: u16,
    publish: &Publish,
    content: &Content,
) -> Result<Send, AllocError>
    ensures send { IfOk result (λ s. s ≡ said.return_of connection channel publish.now content.now) }
    ensures addressed { IfOk result (λ s. IsMethod (seen.BasicPublish publish.now) → IsAddressed connection s) }
{
    Ok(Send::Command {
        connection,
        channel,
        method: Method::BasicReturn(Return {
            reply_code: NO_ROUTE,
            reply_text: reply_text(NO_ROUTE),
            exchange: publish.exchange.clone()?,
            routing_key: publish.routing_key.clone()?,
        }),
        content: Some(content.clone()?),
    })
}

/// Returns the `basic.return` that `publish` needs if it is routed nowhere, or `None` if it is not mandatory. Fails only if an allocation fails.
pub fn return_if(
    connection: u64,
    channel: u16,
    publish: &Publish,
    content: &Content,
) -> Result<Option<Send>, AllocError>
    ensures send { IfOk result (λ r. r ≡ sent.return_if connection channel publish.now content.now) }
    ensures addressed { IfOk result (λ r. IsMethod (seen.BasicPublish publish.now) → IfSome r (λ s. IsAddressed connection s)) }
{
    if publish.mandatory {
        Ok(Some(return_of(connection, channel, publish, content)?))
    } else {
        Ok(None)
    }
}

/// Builds `basic.get-ok` for the message of `entry` with the delivery tag `tag`; `remaining` messages are still ready behind it. The content's
/// bytes are shared. Fails only if an allocation fails.
pub fn get_ok(
    connection: u64,
    channel: u16,
    tag: u64,
    entry: &Entry,
    remaining: usize,
) -> Result<Send, AllocError>
    ensures send { IfOk result (λ s. s ≡ said.get_ok connection channel tag entry.now remaining) }
    ensures addressed { IfOk result (λ s. IsCarried entry.now.message → IsAddressed connection s) }
{
    let message = &entry.message;
    Ok(Send::Command {
        connection,
        channel,
        method: Method::BasicGetOk(GetOk {
            delivery_tag: tag,
            redelivered: message.is_redelivered(),
            exchange: message.exchange().clone()?,
            routing_key: message.key().clone()?,
            message_count: written(remaining),
        }),
        content: Some(message.content().clone()?),
    })
}

/// Builds `basic.deliver` for the message of `entry` with the delivery tag `tag`, to the consumer `consumer_tag`. The content's bytes are shared.
/// Fails only if an allocation fails.
pub fn deliver(
    connection: u64,
    channel: u16,
    tag: u64,
    consumer_tag: &Text,
    entry: &Entry,
) -> Result<Send, AllocError>
    ensures send { IfOk result (λ s. s ≡ said.deliver connection channel tag consumer_tag.now entry.now) }
    ensures addressed { IfOk result (λ s. length consumer_tag.now < 256 → IsCarried entry.now.message → IsAddressed connection s) }
{
    let message = &entry.message;
    Ok(Send::Command {
        connection,
        channel,
        method: Method::BasicDeliver(Deliver {
            consumer_tag: consumer_tag.clone()?,
            delivery_tag: tag,
            redelivered: message.is_redelivered(),
            exchange: message.exchange().clone()?,
            routing_key: message.key().clone()?,
        }),
        content: Some(message.content().clone()?),
    })
}
