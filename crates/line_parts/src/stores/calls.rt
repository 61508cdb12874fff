//! The calls of a queue, by name. Start with [`put_call`].

use crate::stores::entries::{message_of, put_entry};
use crate::stores::tags::{Tags, put_count, put_each, put_given};
use crate::{LineAnswer, Unanswered};
use queue::Store;

/// Reserves slots for `more` messages.
fn reserve<S: Store>(out: &mut LineAnswer, store: &mut S, more: usize) {
    if store.reserve(more).is_err() {
        out.fail(Unanswered::Memory);
    }
}

/// Pushes the message of publish `number`, with a body of `size` bytes.
fn push<S: Store>(out: &mut LineAnswer, store: &mut S, number: u32, size: usize) {
    let Ok(message) = message_of(out.alloc(), u64::from(number), size) else {
        return out.fail(Unanswered::Memory);
    };
    match store.reserve(1) {
        Ok(()) => store.push(message),
        Err(_) => out.fail(Unanswered::Memory),
    }
}

/// Pushes a message for each number in `from..to`.
fn push_all<S: Store>(out: &mut LineAnswer, store: &mut S, from: u32, to: u32, size: u32) {
    for number in from..to {
        push(out, store, number, size as usize);
    }
}

/// Takes `count` messages, and appends them.
fn put_taken<S: Store>(out: &mut LineAnswer, store: &mut S, count: u32) {
    for _ in 0..count {
        let entry = store.take_first();
        put_entry(out, entry.as_ref());
    }
}

/// Appends `numbers`, or `none`.
fn put_numbers(out: &mut LineAnswer, numbers: &[u64]) {
    if numbers.is_empty() {
        out.put_space();
        out.put("none");
    }
    for number in numbers {
        put_count(out, *number);
    }
}

/// Purges the ready messages, and appends their publish numbers.
fn put_purged<S: Store>(out: &mut LineAnswer, store: &mut S) {
    match Vec::with_capacity(out.alloc(), store.ready()) {
        Ok(mut numbers) => {
            store.purge(&mut numbers);
            put_numbers(out, numbers.as_slice());
        }
        Err(_) => out.fail(Unanswered::Memory),
    }
}

/// Appends the number of bytes in the bodies of the ready messages.
fn put_bytes<S: Store>(out: &mut LineAnswer, store: &S) {
    match u64::try_from(store.ready_bytes()) {
        Ok(bytes) => put_count(out, bytes),
        Err(_) => out.fail(Unanswered::Form),
    }
}

/// Appends whether the queue is full for a body of `size` bytes.
fn put_full<S: Store>(
    out: &mut LineAnswer,
    store: &S,
    limit: Option<u32>,
    byte_limit: Option<u32>,
    size: u32,
) {
    out.put_space();
    out.put_yes_or_no(store.is_full(limit, byte_limit, size as usize));
}

/// Makes a call without numbers, and appends its result.
fn put_plain<S: Store>(out: &mut LineAnswer, store: &mut S, name: &str) {
    match name {
        "ready" => put_count(out, store.ready() as u64),
        "bytes" => put_bytes(out, store),
        "first" => put_entry(out, store.first_ready()),
        "purge" => put_purged(out, store),
        _ => out.fail(Unanswered::Form),
    }
}

/// Makes the call `name` with `numbers` as its arguments, and appends its result.
pub(crate) fn put_call<S: Store>(out: &mut LineAnswer, store: &mut S, name: &str, numbers: &[u32]) {
    match *numbers {
        [] => put_plain(out, store, name),
        [more] if name == "reserve" => reserve(out, store, more as usize),
        [count] if name == "take" => put_taken(out, store, count),
        [limit, size] if name == "at" => put_full(out, store, Some(limit), None, size),
        [limit, size] if name == "past" => put_full(out, store, None, Some(limit), size),
        [limit, byte_limit, size] if name == "full" => {
            put_full(out, store, Some(limit), Some(byte_limit), size)
        }
        [from, to, size] if name == "push" => push_all(out, store, from, to, size),
        [connection, channel, first, count] if name == "hold" => put_given(
            out,
            store,
            Tags {
                connection,
                channel,
                first,
                count,
                arrival: 0,
            },
        ),
        [connection, channel, first, count, arrival] => put_each(
            out,
            store,
            name,
            Tags {
                connection,
                channel,
                first,
                count,
                arrival,
            },
        ),
        _ => out.fail(Unanswered::Form),
    }
}
