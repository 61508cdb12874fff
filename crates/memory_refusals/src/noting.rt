//! Writes outputs and notes as `replay` prints them.

use model::{Answer, Cause, Note, Text, Way};
use scripts::{name_word, obstacle_line};
use std::alloc::{AllocError, Global};

/// Returns `bytes` in lower-case hex, or `-` if there are none.
pub fn hex_word(alloc: Global, bytes: &[u8]) -> Result<String, AllocError> {
    if bytes.is_empty() {
        return String::from_str(alloc, "-");
    }
    hex::encode(alloc, bytes)
}

/// Returns the line of a publish; `place` is its number, connection and channel.
fn published_line(
    alloc: Global,
    place: (u64, u64, u16),
    exchange: &Text,
    key: &Text,
    confirm: Option<u64>,
) -> Result<String, AllocError> {
    let (number, connection, channel) = place;
    let exchange = name_word(alloc, exchange.as_bytes())?;
    let key = hex_word(alloc, key.as_bytes())?;
    match confirm {
        Some(confirm) => {
            format!(in alloc;
                "published {number} {connection} {channel} {exchange} {key} {confirm}\n"
            )
        }
        None => {
            format!(in alloc; "published {number} {connection} {channel} {exchange} {key} -\n")
        }
    }
}

/// Returns the line of what a message did at a queue: `what`, its number, the queue, and `rest`.
fn queue_line(
    alloc: Global,
    what: &str,
    number: u64,
    queue: &Text,
    rest: &str,
) -> Result<String, AllocError> {
    let queue = name_word(alloc, queue.as_bytes())?;
    format!(in alloc; "{what} {number} {queue}{rest}\n")
}

/// Returns the word for how a message entered a queue.
fn way_word(way: Way) -> &'static str {
    match way {
        Way::Publish => " publish",
        Way::Dead => " dead",
    }
}

/// Returns the word for why a message left a queue.
fn cause_word(cause: Cause) -> &'static str {
    match cause {
        Cause::Acked => " acked",
        Cause::Auto => " auto",
        Cause::Rejected => " rejected",
        Cause::Purged => " purged",
    }
}

/// Returns the word for how a publish was confirmed.
fn answer_word(answer: Answer) -> &'static str {
    match answer {
        Answer::Ack => "ack",
        Answer::Nack => "nack",
    }
}

/// Returns the line of a note.
pub fn note_line(alloc: Global, note: &Note) -> Result<String, AllocError> {
    match note {
        Note::Published {
            number,
            connection,
            channel,
            exchange,
            key,
            confirm,
        } => published_line(
            alloc,
            (*number, *connection, *channel),
            exchange,
            key,
            *confirm,
        ),
        Note::Entered { number, queue, way } => {
            queue_line(alloc, "entered", *number, queue, way_word(*way))
        }
        Note::Refused { number, queue } => queue_line(alloc, "refused", *number, queue, ""),
        Note::Returned { number } => format!(in alloc; "returned {number}\n"),
        Note::Confirmed { number, answer } => {
            let answer = answer_word(*answer);
            format!(in alloc; "confirmed {number} {answer}\n")
        }
        Note::Left {
            number,
            queue,
            cause,
        } => queue_line(alloc, "left", *number, queue, cause_word(*cause)),
        Note::Reloaded => String::from_str(alloc, "reload done\n"),
        Note::ReloadRefused(obstacle) => obstacle_line(alloc, obstacle),
    }
}
