//! Builds what a session sends by itself: the methods of an opening, closes, and the protocol header.

ghost use Rattle.std.specs.Prelude.{◌≡◌, [], ◌∷◌, ℕ, IfOk};
ghost use Rattle.model.specs.Grammar.{ids};
ghost use Rattle.model.specs.Step.{reply, connection_close};
ghost use Rattle.model.specs.Opening as said;
ghost use Rattle.model.specs.declared.events.Send.TheVariants as send;
ghost use Rattle.session.specs.Answers.{Fits};
ghost use Rattle.model.specs.Sending.{AreOwn};

use model::{Close, Ids, Method, Send, Start, Table, Text, Tuning, limits, reply_text};
use std::alloc::{AllocError, Global};

/// The encoded pairs of the server properties in `connection.start`: the server's extensions of AMQP, and its name.
const PROPERTIES: &[u8] =
    b"\x0ccapabilitiesF\x00\x00\x00\x3f\x12publisher_confirmst\x01\x1aexchange_exchange_bindingst\x01\x0abasic.nackt\x01\x07productS\x00\x00\x00\x06warren";

/// Builds `connection.start`. Fails only if an allocation fails.
pub(crate) fn start(alloc: Global) -> Result<Method, AllocError>
    ensures is { IfOk result (λ method. method ≡ said.start) }
    ensures fits { IfOk result (λ method. Fits method) }
{
    Ok(Method::ConnectionStart(Start {
        version_major: 0,
        version_minor: 9,
        server_properties: Table::from_pairs(Text::from_slice(alloc, PROPERTIES)?),
        mechanisms: Text::short(b"PLAIN"),
        locales: Text::short(b"en_US"),
    }))
}

/// Builds `connection.tune`, with the server's own limits.
pub(crate) fn tune() -> Method
    ensures is { result ≡ said.tune }
    ensures fits { Fits result }
{
    Method::ConnectionTune(Tuning {
        channel_max: limits::CHANNEL_MAX,
        frame_max: 131_072,
        heartbeat: 0,
    })
}

/// Builds `connection.open-ok`.
pub(crate) fn open_ok() -> Method
    ensures is { result ≡ said.open_ok }
    ensures fits { Fits result }
{
    Method::ConnectionOpenOk {
        reserved: Text::empty(),
    }
}

/// Builds `connection.close` with reply code `code`. `cause` has the ids of the method that caused the close, or 0 and 0 if none did.
pub(crate) fn close(code: u16, cause: Ids) -> Method
    ensures is { (c : ℕ) → reply c 0 result ≡ connection_close c code (ids cause.class cause.method) }
    ensures fits { Fits result }
{
    Method::ConnectionClose(Close {
        reply_code: code,
        reply_text: reply_text(code),
        class_id: cause.class,
        method_id: cause.method,
    })
}

/// Returns an empty list of sends. Never allocates.
pub(crate) fn nothing(alloc: Global) -> Vec<Send>
    ensures sends { result.items ≡ [] }
    ensures own { (c : ℕ) → AreOwn c result.items }
{
    Vec::new(alloc)
}

/// Returns a list that sends `method` on channel 0, without content. Fails only if an allocation fails.
pub(crate) fn one(alloc: Global, connection: u64, method: Method) -> Result<Vec<Send>, AllocError>
    requires { Fits method }
    ensures sends { IfOk result (λ sends. sends.items ≡ reply connection 0 method ∷ []) }
    ensures own { IfOk result (λ sends. AreOwn connection sends.items) }
{
    let mut sends = Vec::new(alloc);
    sends.push(Send::Command {
        connection,
        channel: 0,
        method,
        content: None,
    })?;
    Ok(sends)
}

/// Returns a list that sends the protocol header. Fails only if an allocation fails.
pub(crate) fn greeting(alloc: Global, connection: u64) -> Result<Vec<Send>, AllocError>
    ensures sends { IfOk result (λ sends. sends.items ≡ send.Greeting connection ∷ []) }
    ensures own { IfOk result (λ sends. AreOwn connection sends.items) }
{
    let mut sends = Vec::new(alloc);
    sends.push(Send::Greeting { connection })?;
    Ok(sends)
}
