//! Dispatches on the method's number within each class, and reads its arguments in wire order.

ghost use Rattle.std.specs.Prelude.{◌≡◌, ◌<◌, ◌≤◌, false};
ghost use Rattle.model.specs.Grammar.{is_left_out};
ghost use Rattle.methods.specs.Reading.{ReadsArguments};

use crate::cursor::Cursor;
use crate::refusals::BadMethod;
use model::{
    Ack, Cancel, Close, Consume, Deliver, ExchangeDeclare, Get, GetOk, Method, Nack, Open, Publish,
    Purge, Qos, QueueDeclare, QueueDeclared, Reject, Return, Start, StartOk, Tuning,
};

/// Reads all that is left of a [`Cursor`] as the fields of a struct or a variant, in the order in which they are listed. Behind each
/// field is the cursor's call that reads it; fields joined by `|` are bits that share an octet. Returns the error if there is one.
macro_rules! read {
    ($from:ident => $($made:ident)::+ { $($($field:ident)|+: $call:ident),* }) => {{
        $(let ($($field),+) = $from.$call()?;)*
        $from.end()?;
        $($made)::+ { $($($field: as_field!($from, $call, $field)),+),* }
    }};
}

/// Makes a field of what the cursor's call returned: a table of its pairs.
macro_rules! as_field {
    ($from:ident, pairs, $pairs:ident) => { $from.table_of($pairs)? };
    ($from:ident, $call:ident, $value:ident) => { $value };
}

pub(crate) fn connection(method: u16, mut from: Cursor<'_>) -> Result<Method, BadMethod>
    ensures { ReadsArguments 10 method from.entry.rest.now result }
{
    match method {
        10 => Ok(Method::ConnectionStart(read!(from => Start {
            version_major: octet, version_minor: octet, server_properties: pairs, mechanisms: long_text, locales: long_text
        }))),
        11 => Ok(Method::ConnectionStartOk(read!(from => StartOk {
            client_properties: pairs, mechanism: short_text, response: long_text, locale: short_text
        }))),
        30 => Ok(Method::ConnectionTune(
            read!(from => Tuning { channel_max: short, frame_max: long, heartbeat: short }),
        )),
        31 => Ok(Method::ConnectionTuneOk(
            read!(from => Tuning { channel_max: short, frame_max: long, heartbeat: short }),
        )),
        40 => Ok(Method::ConnectionOpen(
            read!(from => Open { virtual_host: short_text, reserved_text: short_text, reserved_bit: bit }),
        )),
        41 => Ok(read!(from => Method::ConnectionOpenOk { reserved: short_text })),
        50 => Ok(Method::ConnectionClose(
            read!(from => Close { reply_code: short, reply_text: short_text, class_id: short, method_id: short }),
        )),
        51 => Ok(read!(from => Method::ConnectionCloseOk {})),
        _ => Err(BadMethod::CommandInvalid),
    }
}

pub(crate) fn channel(method: u16, mut from: Cursor<'_>) -> Result<Method, BadMethod>
    ensures { ReadsArguments 20 method from.entry.rest.now result }
{
    match method {
        10 => Ok(read!(from => Method::ChannelOpen { reserved: short_text })),
        11 => Ok(read!(from => Method::ChannelOpenOk { reserved: long_text })),
        20 => Ok(read!(from => Method::ChannelFlow { active: bit })),
        21 => Ok(read!(from => Method::ChannelFlowOk { active: bit })),
        40 => Ok(Method::ChannelClose(
            read!(from => Close { reply_code: short, reply_text: short_text, class_id: short, method_id: short }),
        )),
        41 => Ok(read!(from => Method::ChannelCloseOk {})),
        _ => Err(BadMethod::CommandInvalid),
    }
}

pub(crate) fn exchange(method: u16, mut from: Cursor<'_>) -> Result<Method, BadMethod>
    ensures { ReadsArguments 40 method from.entry.rest.now result }
{
    match method {
        10 => Ok(Method::ExchangeDeclare(read!(from => ExchangeDeclare {
            reserved: short, exchange: short_text, kind: short_text, passive | durable | auto_delete | internal | no_wait: five_bits, arguments: pairs
        }))),
        11 => Ok(read!(from => Method::ExchangeDeclareOk {})),
        20 => Ok(Method::ExchangeDelete),
        30 => Ok(Method::ExchangeBind),
        40 => Ok(Method::ExchangeUnbind),
        _ => Err(BadMethod::CommandInvalid),
    }
}

pub(crate) fn queue(method: u16, mut from: Cursor<'_>) -> Result<Method, BadMethod>
    ensures { ReadsArguments 50 method from.entry.rest.now result }
{
    match method {
        10 => Ok(Method::QueueDeclare(read!(from => QueueDeclare {
            reserved: short, queue: short_text, passive | durable | exclusive | auto_delete | no_wait: five_bits, arguments: pairs
        }))),
        11 => Ok(Method::QueueDeclareOk(
            read!(from => QueueDeclared { queue: short_text, message_count: long, consumer_count: long }),
        )),
        20 => Ok(Method::QueueBind),
        30 => Ok(Method::QueuePurge(
            read!(from => Purge { reserved: short, queue: short_text, no_wait: bit }),
        )),
        31 => Ok(read!(from => Method::QueuePurgeOk { message_count: long })),
        40 => Ok(Method::QueueDelete),
        50 => Ok(Method::QueueUnbind),
        _ => Err(BadMethod::CommandInvalid),
    }
}

pub(crate) fn basic(method: u16, from: Cursor<'_>) -> Result<Method, BadMethod>
    requires { is_left_out 60 method ≡ false }
    ensures { ReadsArguments 60 method from.entry.rest.now result }
{
    match method {
        0..40 => basic_consuming(method, from),
        40..80 => basic_contents(method, from),
        _ => basic_settling(method, from),
    }
}

fn basic_consuming(method: u16, mut from: Cursor<'_>) -> Result<Method, BadMethod>
    requires { method < 40 }
    ensures { ReadsArguments 60 method from.entry.rest.now result }
{
    match method {
        10 => Ok(Method::BasicQos(
            read!(from => Qos { prefetch_size: long, prefetch_count: short, global: bit }),
        )),
        11 => Ok(read!(from => Method::BasicQosOk {})),
        20 => Ok(Method::BasicConsume(read!(from => Consume {
            reserved: short, queue: short_text, consumer_tag: short_text, no_local | no_ack | exclusive | no_wait: four_bits, arguments: pairs
        }))),
        21 => Ok(read!(from => Method::BasicConsumeOk { consumer_tag: short_text })),
        30 => Ok(Method::BasicCancel(
            read!(from => Cancel { consumer_tag: short_text, no_wait: bit }),
        )),
        31 => Ok(read!(from => Method::BasicCancelOk { consumer_tag: short_text })),
        _ => Err(BadMethod::CommandInvalid),
    }
}

fn basic_contents(method: u16, mut from: Cursor<'_>) -> Result<Method, BadMethod>
    requires before { 40 ≤ method }
    requires behind { method < 80 }
    ensures { ReadsArguments 60 method from.entry.rest.now result }
{
    match method {
        40 => Ok(Method::BasicPublish(read!(from => Publish {
            reserved: short, exchange: short_text, routing_key: short_text, mandatory | immediate: two_bits
        }))),
        50 => Ok(Method::BasicReturn(
            read!(from => Return { reply_code: short, reply_text: short_text, exchange: short_text, routing_key: short_text }),
        )),
        60 => Ok(Method::BasicDeliver(read!(from => Deliver {
            consumer_tag: short_text, delivery_tag: long_long, redelivered: bit, exchange: short_text, routing_key: short_text
        }))),
        70 => Ok(Method::BasicGet(
            read!(from => Get { reserved: short, queue: short_text, no_ack: bit }),
        )),
        71 => Ok(Method::BasicGetOk(read!(from => GetOk {
            delivery_tag: long_long, redelivered: bit, exchange: short_text, routing_key: short_text, message_count: long
        }))),
        72 => Ok(read!(from => Method::BasicGetEmpty { reserved: short_text })),
        _ => Err(BadMethod::CommandInvalid),
    }
}

fn basic_settling(method: u16, mut from: Cursor<'_>) -> Result<Method, BadMethod>
    requires high { 80 ≤ method }
    requires not_left_out { is_left_out 60 method ≡ false }
    ensures { ReadsArguments 60 method from.entry.rest.now result }
{
    match method {
        80 => Ok(Method::BasicAck(read!(from => Ack { delivery_tag: long_long, multiple: bit }))),
        90 => Ok(Method::BasicReject(
            read!(from => Reject { delivery_tag: long_long, requeue: bit }),
        )),
        110 => Ok(read!(from => Method::BasicRecover { requeue: bit })),
        111 => Ok(read!(from => Method::BasicRecoverOk {})),
        120 => Ok(Method::BasicNack(
            read!(from => Nack { delivery_tag: long_long, multiple | requeue: two_bits }),
        )),
        _ => Err(BadMethod::CommandInvalid),
    }
}

pub(crate) fn confirm(method: u16, mut from: Cursor<'_>) -> Result<Method, BadMethod>
    ensures { ReadsArguments 85 method from.entry.rest.now result }
{
    match method {
        10 => Ok(read!(from => Method::ConfirmSelect { no_wait: bit })),
        11 => Ok(read!(from => Method::ConfirmSelectOk {})),
        _ => Err(BadMethod::CommandInvalid),
    }
}
