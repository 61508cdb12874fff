//! The numbers of AMQP: the class and method ids of methods, and the texts of reply codes.

ghost use Rattle.std.specs.Prelude.{◌≡◌, ◌<◌, length};
ghost use Rattle.model.specs.Codes.{code_text};

use crate::methods::Method;
use crate::texts::Text;

/// The class and the method id of a method.
#[derive(Clone, Copy, PartialEq, Eq, Debug, Drop)]
pub struct Ids {
    pub class: u16,
    pub method: u16,
}

impl Method {
    ghost use Rattle.model.specs.Grammar.{ids, ids_of};

    /// Returns the class and the method id. Source: AMQP 0-9-1, its XML.
    pub fn ids(&self) -> Ids
        ensures { ids result.class result.method ≡ ids_of self.now }
    {
        let (class, method) = match self {
            Method::ConnectionStart(_) => (10, 10),
            Method::ConnectionStartOk(_) => (10, 11),
            Method::ConnectionTune(_) => (10, 30),
            Method::ConnectionTuneOk(_) => (10, 31),
            Method::ConnectionOpen(_) => (10, 40),
            Method::ConnectionOpenOk { .. } => (10, 41),
            Method::ConnectionClose(_) => (10, 50),
            Method::ConnectionCloseOk => (10, 51),
            Method::ChannelOpen { .. } => (20, 10),
            Method::ChannelOpenOk { .. } => (20, 11),
            Method::ChannelFlow { .. } => (20, 20),
            Method::ChannelFlowOk { .. } => (20, 21),
            Method::ChannelClose(_) => (20, 40),
            Method::ChannelCloseOk => (20, 41),
            Method::ExchangeDeclare(_) => (40, 10),
            Method::ExchangeDeclareOk => (40, 11),
            Method::ExchangeDelete => (40, 20),
            Method::ExchangeBind => (40, 30),
            Method::ExchangeUnbind => (40, 40),
            Method::QueueDeclare(_) => (50, 10),
            Method::QueueDeclareOk(_) => (50, 11),
            Method::QueueBind => (50, 20),
            Method::QueuePurge(_) => (50, 30),
            Method::QueuePurgeOk { .. } => (50, 31),
            Method::QueueDelete => (50, 40),
            Method::QueueUnbind => (50, 50),
            Method::BasicQos(_) => (60, 10),
            Method::BasicQosOk => (60, 11),
            Method::BasicConsume(_) => (60, 20),
            Method::BasicConsumeOk { .. } => (60, 21),
            Method::BasicCancel(_) => (60, 30),
            Method::BasicCancelOk { .. } => (60, 31),
            Method::BasicPublish(_) => (60, 40),
            Method::BasicReturn(_) => (60, 50),
            Method::BasicDeliver(_) => (60, 60),
            Method::BasicGet(_) => (60, 70),
            Method::BasicGetOk(_) => (60, 71),
            Method::BasicGetEmpty { .. } => (60, 72),
            Method::BasicAck(_) => (60, 80),
            Method::BasicReject(_) => (60, 90),
            Method::BasicRecover { .. } => (60, 110),
            Method::BasicRecoverOk => (60, 111),
            Method::BasicNack(_) => (60, 120),
            Method::ConfirmSelect { .. } => (85, 10),
            Method::ConfirmSelectOk => (85, 11),
        };
        Ids { class, method }
    }
}

/// Returns the name of the reply code `code`, or `internal-error` for 541 and any code without a name here. Source: AMQP 0-9-1, section 1.1, "reply-code".
pub fn reply_text(code: u16) -> Text
    ensures text { result ≡ code_text code }
    ensures short { length result < 256 }
{
    let text: &[u8] = match code {
        311 => b"content-too-large",
        312 => b"no-route",
        403 => b"access-refused",
        404 => b"not-found",
        406 => b"precondition-failed",
        501 => b"frame-error",
        502 => b"syntax-error",
        503 => b"command-invalid",
        504 => b"channel-error",
        505 => b"unexpected-frame",
        506 => b"resource-error",
        530 => b"not-allowed",
        540 => b"not-implemented",
        _ => b"internal-error",
    };
    Text::short(text)
}
