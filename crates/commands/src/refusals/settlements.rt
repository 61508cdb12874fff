//! Decides on acknowledgements and rejections.

ghost use Rattle.std.specs.Prelude.{◌≡◌, List, IfOk};
ghost use Rattle.model.specs.Words.{Text as Name};
ghost use Rattle.model.specs.Step as said;
ghost use Rattle.channels.specs.Open.{open_in};
ghost use Rattle.channels.specs.Spans.{IsSpan};
ghost use Rattle.commands.specs.Judged.{refused_by};

use crate::refusals::Refusal;
use channels::{Channel, Span};

/// Returns the span of the channel's deliveries that `tag` settles. Refuses a tag that is not unacknowledged. Source: AMQP 0-9-1, basic.ack,
/// "delivery-tag".
pub fn check_settling(channel: &Channel, tag: u64, multiple: bool) -> Result<Span, Refusal>
    ensures span { IfOk result (λ span. IsSpan span tag multiple channel.now.given.outstanding) }
    ensures refusal { (names : List Name) → refused_by result ≡ said.refusal_of_settling (open_in names channel.now) tag multiple }
{
    match channel.span(tag, multiple) {
        Some(span) => Ok(span),
        None => Err(Refusal::Channel(406)),
    }
}
