//! Builds the messages that are pushed, and writes those that a queue returns.

use crate::LineAnswer;
use model::{Body, Content, Entry, Holder, Mark, Message, Properties, Publish, Text};
use std::alloc::{AllocError, Global};

/// Returns a body of `size` bytes.
fn body_of(alloc: Global, size: usize) -> Result<Body, AllocError> {
    let bytes = vec![in alloc; 0; size]?;
    Body::from_slice(alloc, bytes.as_slice())
}

/// Returns the message of publish `number`, with no exchange, no key, and a body of `size` bytes.
pub(crate) fn message_of(alloc: Global, number: u64, size: usize) -> Result<Message, AllocError> {
    let publish = Publish {
        reserved: 0,
        exchange: Text::empty(),
        routing_key: Text::empty(),
        mandatory: false,
        immediate: false,
    };
    let content = Content {
        properties: Properties::none(),
        body: body_of(alloc, size)?,
    };
    Message::of_publish(alloc, number, &publish, &content)
}

/// Appends the holder of a message.
fn put_holder(out: &mut LineAnswer, holder: &Holder) {
    out.put("@");
    out.put_number(holder.connection);
    out.put(".");
    out.put_number(u64::from(holder.channel));
    out.put(".");
    out.put_number(holder.tag);
}

/// Appends a message: its publish number, whether it is redelivered, and its holder.
fn put_there(out: &mut LineAnswer, entry: &Entry) {
    out.put_number(entry.message.number());
    if entry.message.is_redelivered() {
        out.put("r");
    }
    if let Mark::Held(holder) = &entry.mark {
        put_holder(out, holder);
    }
}

/// Appends a message, or `none`.
pub(crate) fn put_entry(out: &mut LineAnswer, entry: Option<&Entry>) {
    out.put_space();
    match entry {
        Some(entry) => put_there(out, entry),
        None => out.put("none"),
    }
}
