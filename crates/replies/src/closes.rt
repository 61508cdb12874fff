//! Builds closes, and the replies to them.

ghost use Rattle.std.specs.Prelude.{◌≡◌, ◌<◌, None, length};
ghost use Rattle.model.specs.Codes.{code_text};
ghost use Rattle.model.specs.Grammar.{ids};
ghost use Rattle.model.specs.Sending.{IsAddressed};
ghost use Rattle.model.specs.Step as said;
ghost use Rattle.model.specs.declared.methods.Method.TheVariants as seen;

use model::{Close, Ids, Method, Send, reply_text};

/// Builds a send of a method without content.
pub(crate) fn reply(connection: u64, channel: u16, method: Method) -> Send
    ensures { result ≡ said.reply connection channel method }
{
    Send::Command {
        connection,
        channel,
        method,
        content: None,
    }
}

/// Returns the arguments of a close: its reply code and text, and the ids of the method that caused it.
fn close(code: u16, cause: Ids) -> Close
    ensures close { result ≡ record { reply_code = code; reply_text = code_text code; class_id = cause.class; method_id = cause.method } }
    ensures short { length result.reply_text < 256 }
{
    Close {
        reply_code: code,
        reply_text: reply_text(code),
        class_id: cause.class,
        method_id: cause.method,
    }
}

/// Builds `channel.close` with reply code `code`, for the method `cause`.
pub fn channel_close(connection: u64, channel: u16, code: u16, cause: Ids) -> Send
    ensures send { result ≡ said.channel_close connection channel code (ids cause.class cause.method) }
    ensures addressed { IsAddressed connection result }
{
    reply(
        connection,
        channel,
        Method::ChannelClose(close(code, cause)),
    )
}

/// Builds `connection.close` with reply code `code`, for the method `cause`.
pub fn connection_close(connection: u64, code: u16, cause: Ids) -> Send
    ensures send { result ≡ said.connection_close connection code (ids cause.class cause.method) }
    ensures addressed { IsAddressed connection result }
{
    reply(connection, 0, Method::ConnectionClose(close(code, cause)))
}

/// Builds `channel.close-ok`.
pub fn channel_close_ok(connection: u64, channel: u16) -> Send
    ensures send { result ≡ said.reply connection channel seen.ChannelCloseOk }
    ensures addressed { IsAddressed connection result }
{
    reply(connection, channel, Method::ChannelCloseOk)
}

/// Builds `connection.close-ok`.
pub fn connection_close_ok(connection: u64) -> Send
    ensures send { result ≡ said.reply connection 0 seen.ConnectionCloseOk }
    ensures addressed { IsAddressed connection result }
{
    reply(connection, 0, Method::ConnectionCloseOk)
}
