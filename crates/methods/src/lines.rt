//! Lists the arguments of each method for writing, in wire order.

ghost use Rattle.std.specs.Prelude.{◌≡◌};
ghost use Rattle.model.specs.Grammar.{arguments};
ghost use Rattle.methods.specs.Pieces.{given};

use crate::pieces::Piece::{
    Bit, FiveBits, FourBits, Long, LongLong, LongText, Nothing, Octet, Short, ShortText, Table,
    TwoBits,
};
use crate::pieces::{NOTHING, Pieces};
use model::Method;

/// Lists up to five arguments.
macro_rules! pieces {
    ($first:expr, $second:expr, $third:expr, $fourth:expr, $fifth:expr) => {
        Pieces { first: $first, second: $second, third: $third, fourth: $fourth, fifth: $fifth }
    };
    ($($piece:expr),+) => { pieces!($($piece),+, Nothing) };
}

/// Returns the arguments of `method` in wire order.
pub(crate) fn arguments_of(method: &Method) -> Pieces<'_>
    ensures { given result ≡ arguments method.now }
{
    match method {
        Method::ConnectionStart(s) => pieces!(
            Octet(s.version_major),
            Octet(s.version_minor),
            Table(s.server_properties.as_bytes()),
            LongText(s.mechanisms.as_bytes()),
            LongText(s.locales.as_bytes())
        ),
        Method::ConnectionStartOk(s) => pieces!(
            Table(s.client_properties.as_bytes()),
            ShortText(s.mechanism.as_bytes()),
            LongText(s.response.as_bytes()),
            ShortText(s.locale.as_bytes())
        ),
        Method::ConnectionTune(t) | Method::ConnectionTuneOk(t) => pieces!(
            Short(t.channel_max),
            Long(t.frame_max),
            Short(t.heartbeat)
        ),
        Method::ConnectionOpen(o) => pieces!(
            ShortText(o.virtual_host.as_bytes()),
            ShortText(o.reserved_text.as_bytes()),
            Bit(o.reserved_bit)
        ),
        Method::ConnectionOpenOk { reserved } => pieces!(ShortText(reserved.as_bytes())),
        Method::ConnectionClose(c) | Method::ChannelClose(c) => {
            pieces!(
                Short(c.reply_code),
                ShortText(c.reply_text.as_bytes()),
                Short(c.class_id),
                Short(c.method_id)
            )
        }
        Method::ChannelOpen { reserved } => pieces!(ShortText(reserved.as_bytes())),
        Method::ChannelOpenOk { reserved } => pieces!(LongText(reserved.as_bytes())),
        Method::ChannelFlow { active } | Method::ChannelFlowOk { active } => pieces!(Bit(*active)),
        Method::ExchangeDeclare(e) => pieces!(
            Short(e.reserved),
            ShortText(e.exchange.as_bytes()),
            ShortText(e.kind.as_bytes()),
            FiveBits(e.passive, e.durable, e.auto_delete, e.internal, e.no_wait),
            Table(e.arguments.as_bytes())
        ),
        Method::QueueDeclare(q) => pieces!(
            Short(q.reserved),
            ShortText(q.queue.as_bytes()),
            FiveBits(q.passive, q.durable, q.exclusive, q.auto_delete, q.no_wait),
            Table(q.arguments.as_bytes())
        ),
        Method::QueueDeclareOk(q) => pieces!(
            ShortText(q.queue.as_bytes()),
            Long(q.message_count),
            Long(q.consumer_count)
        ),
        Method::QueuePurge(p) => pieces!(
            Short(p.reserved),
            ShortText(p.queue.as_bytes()),
            Bit(p.no_wait)
        ),
        Method::QueuePurgeOk { message_count } => pieces!(Long(*message_count)),
        Method::BasicQos(q) => pieces!(
            Long(q.prefetch_size),
            Short(q.prefetch_count),
            Bit(q.global)
        ),
        Method::BasicConsume(c) => pieces!(
            Short(c.reserved),
            ShortText(c.queue.as_bytes()),
            ShortText(c.consumer_tag.as_bytes()),
            FourBits(c.no_local, c.no_ack, c.exclusive, c.no_wait),
            Table(c.arguments.as_bytes())
        ),
        Method::BasicConsumeOk { consumer_tag } => pieces!(ShortText(consumer_tag.as_bytes())),
        Method::BasicCancel(c) => pieces!(ShortText(c.consumer_tag.as_bytes()), Bit(c.no_wait)),
        Method::BasicCancelOk { consumer_tag } => pieces!(ShortText(consumer_tag.as_bytes())),
        Method::BasicPublish(p) => pieces!(
            Short(p.reserved),
            ShortText(p.exchange.as_bytes()),
            ShortText(p.routing_key.as_bytes()),
            TwoBits(p.mandatory, p.immediate)
        ),
        Method::BasicReturn(r) => pieces!(
            Short(r.reply_code),
            ShortText(r.reply_text.as_bytes()),
            ShortText(r.exchange.as_bytes()),
            ShortText(r.routing_key.as_bytes())
        ),
        Method::BasicDeliver(d) => pieces!(
            ShortText(d.consumer_tag.as_bytes()),
            LongLong(d.delivery_tag),
            Bit(d.redelivered),
            ShortText(d.exchange.as_bytes()),
            ShortText(d.routing_key.as_bytes())
        ),
        Method::BasicGet(g) => pieces!(
            Short(g.reserved),
            ShortText(g.queue.as_bytes()),
            Bit(g.no_ack)
        ),
        Method::BasicGetOk(g) => pieces!(
            LongLong(g.delivery_tag),
            Bit(g.redelivered),
            ShortText(g.exchange.as_bytes()),
            ShortText(g.routing_key.as_bytes()),
            Long(g.message_count)
        ),
        Method::BasicGetEmpty { reserved } => pieces!(ShortText(reserved.as_bytes())),
        Method::BasicAck(a) => pieces!(LongLong(a.delivery_tag), Bit(a.multiple)),
        Method::BasicReject(r) => pieces!(LongLong(r.delivery_tag), Bit(r.requeue)),
        Method::BasicRecover { requeue } => pieces!(Bit(*requeue)),
        Method::BasicNack(n) => pieces!(LongLong(n.delivery_tag), TwoBits(n.multiple, n.requeue)),
        Method::ConfirmSelect { no_wait } => pieces!(Bit(*no_wait)),
        _ => NOTHING,
    }
}
