//! The methods of AMQP 0-9-1 that the broker knows, each with its arguments in the order of the wire.
//!
//! Source: AMQP 0-9-1's XML, with RabbitMQ's `confirm` class and `basic.nack`. Reserved arguments are kept as they came.

use crate::tables::Table;
use crate::texts::Text;

/// connection.start.
#[derive(Drop)]
pub struct Start {
    pub version_major: u8,
    pub version_minor: u8,
    pub server_properties: Table,
    pub mechanisms: Text,
    pub locales: Text,
}

/// connection.start-ok.
#[derive(Drop)]
pub struct StartOk {
    pub client_properties: Table,
    pub mechanism: Text,
    pub response: Text,
    pub locale: Text,
}

/// connection.tune and connection.tune-ok: the limits, 0 for no limit of one's own, and the seconds between heartbeats.
#[derive(Clone, Copy, Drop)]
pub struct Tuning {
    pub channel_max: u16,
    pub frame_max: u32,
    pub heartbeat: u16,
}

/// connection.open.
#[derive(Drop)]
pub struct Open {
    pub virtual_host: Text,
    pub reserved_text: Text,
    pub reserved_bit: bool,
}

/// connection.close and channel.close: the reason, and the ids of the method that caused it, or 0 and 0.
#[derive(Drop)]
pub struct Close {
    pub reply_code: u16,
    pub reply_text: Text,
    pub class_id: u16,
    pub method_id: u16,
}

/// exchange.declare.
#[derive(Drop)]
pub struct ExchangeDeclare {
    pub reserved: u16,
    pub exchange: Text,
    pub kind: Text,
    pub passive: bool,
    pub durable: bool,
    pub auto_delete: bool,
    pub internal: bool,
    pub no_wait: bool,
    pub arguments: Table,
}

/// queue.declare.
#[derive(Drop)]
pub struct QueueDeclare {
    pub reserved: u16,
    pub queue: Text,
    pub passive: bool,
    pub durable: bool,
    pub exclusive: bool,
    pub auto_delete: bool,
    pub no_wait: bool,
    pub arguments: Table,
}

/// queue.declare-ok.
#[derive(Drop)]
pub struct QueueDeclared {
    pub queue: Text,
    pub message_count: u32,
    pub consumer_count: u32,
}

/// queue.purge.
#[derive(Drop)]
pub struct Purge {
    pub reserved: u16,
    pub queue: Text,
    pub no_wait: bool,
}

/// basic.qos.
#[derive(Clone, Copy, Drop)]
pub struct Qos {
    pub prefetch_size: u32,
    pub prefetch_count: u16,
    pub global: bool,
}

/// basic.consume.
#[derive(Drop)]
pub struct Consume {
    pub reserved: u16,
    pub queue: Text,
    pub consumer_tag: Text,
    pub no_local: bool,
    pub no_ack: bool,
    pub exclusive: bool,
    pub no_wait: bool,
    pub arguments: Table,
}

/// basic.cancel.
#[derive(Drop)]
pub struct Cancel {
    pub consumer_tag: Text,
    pub no_wait: bool,
}

/// basic.publish, which carries a content.
#[derive(Drop)]
pub struct Publish {
    pub reserved: u16,
    pub exchange: Text,
    pub routing_key: Text,
    pub mandatory: bool,
    pub immediate: bool,
}

/// basic.return, which carries a content.
#[derive(Drop)]
pub struct Return {
    pub reply_code: u16,
    pub reply_text: Text,
    pub exchange: Text,
    pub routing_key: Text,
}

/// basic.deliver, which carries a content.
#[derive(Drop)]
pub struct Deliver {
    pub consumer_tag: Text,
    pub delivery_tag: u64,
    pub redelivered: bool,
    pub exchange: Text,
    pub routing_key: Text,
}

/// basic.get.
#[derive(Drop)]
pub struct Get {
    pub reserved: u16,
    pub queue: Text,
    pub no_ack: bool,
}

/// basic.get-ok, which carries a content.
#[derive(Drop)]
pub struct GetOk {
    pub delivery_tag: u64,
    pub redelivered: bool,
    pub exchange: Text,
    pub routing_key: Text,
    /// The number of ready messages that remain.
    pub message_count: u32,
}

/// basic.ack, of a delivery or of a publish.
#[derive(Clone, Copy, Drop)]
pub struct Ack {
    pub delivery_tag: u64,
    pub multiple: bool,
}

/// basic.reject.
#[derive(Clone, Copy, Drop)]
pub struct Reject {
    pub delivery_tag: u64,
    pub requeue: bool,
}

/// basic.nack, of a delivery or of a publish.
#[derive(Clone, Copy, Drop)]
pub struct Nack {
    pub delivery_tag: u64,
    pub multiple: bool,
    pub requeue: bool,
}

/// A method with its arguments. Methods that bind, unbind or delete for a client are refused, and their arguments are not read.
pub enum Method {
    ConnectionStart(Start),
    ConnectionStartOk(StartOk),
    ConnectionTune(Tuning),
    ConnectionTuneOk(Tuning),
    ConnectionOpen(Open),
    ConnectionOpenOk { reserved: Text },
    ConnectionClose(Close),
    ConnectionCloseOk,
    ChannelOpen { reserved: Text },
    ChannelOpenOk { reserved: Text },
    ChannelFlow { active: bool },
    ChannelFlowOk { active: bool },
    ChannelClose(Close),
    ChannelCloseOk,
    ExchangeDeclare(ExchangeDeclare),
    ExchangeDeclareOk,
    ExchangeDelete,
    ExchangeBind,
    ExchangeUnbind,
    QueueDeclare(QueueDeclare),
    QueueDeclareOk(QueueDeclared),
    QueueBind,
    QueuePurge(Purge),
    QueuePurgeOk { message_count: u32 },
    QueueDelete,
    QueueUnbind,
    BasicQos(Qos),
    BasicQosOk,
    BasicConsume(Consume),
    BasicConsumeOk { consumer_tag: Text },
    BasicCancel(Cancel),
    BasicCancelOk { consumer_tag: Text },
    BasicPublish(Publish),
    BasicReturn(Return),
    BasicDeliver(Deliver),
    BasicGet(Get),
    BasicGetOk(GetOk),
    BasicGetEmpty { reserved: Text },
    BasicAck(Ack),
    BasicReject(Reject),
    BasicRecover { requeue: bool },
    BasicRecoverOk,
    BasicNack(Nack),
    ConfirmSelect { no_wait: bool },
    ConfirmSelectOk,
}

/// Not derived: a derived drop is expanded, and proved again, in each function that drops the value.
impl Drop for Method {
    fn drop(self) {
        match self {
            Method::ConnectionStart(_) => {}
            Method::ConnectionStartOk(_) => {}
            Method::ConnectionTune(_) => {}
            Method::ConnectionTuneOk(_) => {}
            Method::ConnectionOpen(_) => {}
            Method::ConnectionOpenOk { reserved: _ } => {}
            Method::ConnectionClose(_) => {}
            Method::ConnectionCloseOk => {}
            Method::ChannelOpen { reserved: _ } => {}
            Method::ChannelOpenOk { reserved: _ } => {}
            Method::ChannelFlow { active: _ } => {}
            Method::ChannelFlowOk { active: _ } => {}
            Method::ChannelClose(_) => {}
            Method::ChannelCloseOk => {}
            Method::ExchangeDeclare(_) => {}
            Method::ExchangeDeclareOk => {}
            Method::ExchangeDelete => {}
            Method::ExchangeBind => {}
            Method::ExchangeUnbind => {}
            Method::QueueDeclare(_) => {}
            Method::QueueDeclareOk(_) => {}
            Method::QueueBind => {}
            Method::QueuePurge(_) => {}
            Method::QueuePurgeOk { message_count: _ } => {}
            Method::QueueDelete => {}
            Method::QueueUnbind => {}
            Method::BasicQos(_) => {}
            Method::BasicQosOk => {}
            Method::BasicConsume(_) => {}
            Method::BasicConsumeOk { consumer_tag: _ } => {}
            Method::BasicCancel(_) => {}
            Method::BasicCancelOk { consumer_tag: _ } => {}
            Method::BasicPublish(_) => {}
            Method::BasicReturn(_) => {}
            Method::BasicDeliver(_) => {}
            Method::BasicGet(_) => {}
            Method::BasicGetOk(_) => {}
            Method::BasicGetEmpty { reserved: _ } => {}
            Method::BasicAck(_) => {}
            Method::BasicReject(_) => {}
            Method::BasicRecover { requeue: _ } => {}
            Method::BasicRecoverOk => {}
            Method::BasicNack(_) => {}
            Method::ConfirmSelect { no_wait: _ } => {}
            Method::ConfirmSelectOk => {}
        }
    }
}

impl Method {
    ghost use Rattle.std.specs.Prelude.{◌≡◌};
    ghost use Rattle.model.specs.Grammar.{split};

    /// Returns the arguments of a publish, or the method itself if it is another.
    pub fn into_publish(self) -> Result<Publish, Method>
        ensures { result ≡ split self }
    {
        match self {
            Method::BasicPublish(publish) => Ok(publish),
            method => Err(method),
        }
    }
}
