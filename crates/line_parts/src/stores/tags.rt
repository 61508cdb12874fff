//! Calls for a range of delivery tags of a channel.

use crate::stores::entries::put_entry;
use crate::{LineAnswer, Unanswered};
use model::{Holder, Taker};
use queue::Store;

/// `count` delivery tags of a channel, from `first` on, and the arrival number of the message under the first of them.
#[derive(Clone, Copy, Drop)]
pub(crate) struct Tags {
    pub(crate) connection: u32,
    pub(crate) channel: u32,
    pub(crate) first: u32,
    pub(crate) count: u32,
    pub(crate) arrival: u32,
}

impl Tags {
    /// Returns the holder whose tag is `index` after the first tag.
    fn holder(&self, index: u32, by: Taker) -> Holder {
        Holder {
            connection: u64::from(self.connection),
            channel: u16::try_from(self.channel).unwrap_or(u16::MAX),
            tag: u64::from(self.first) + u64::from(index),
            by,
        }
    }

    /// Returns the arrival number of the message under the tag `index` after the first.
    fn arrival(&self, index: u32) -> u64 {
        u64::from(self.arrival) + u64::from(index)
    }
}

/// Appends a number, after a space unless the answer is empty.
pub(crate) fn put_count(out: &mut LineAnswer, count: u64) {
    out.put_space();
    out.put_number(count);
}

/// Gives the first ready message to `holder`, unless one is held under its tag already. Returns whether a message was given.
fn is_given<S: Store>(store: &mut S, holder: Holder) -> bool {
    if store.held(&holder, 0).is_some() {
        return false;
    }
    store.hold(holder).is_some()
}

/// Holds a message under each of `tags`, and appends the number of messages held.
pub(crate) fn put_given<S: Store>(out: &mut LineAnswer, store: &mut S, tags: Tags) {
    let mut given: u64 = 0;
    for index in 0..tags.count {
        let holder = tags.holder(index, Taker::Consumer(1));
        given = given.saturating_add(u64::from(is_given(store, holder)));
    }
    put_count(out, given);
}

/// Appends the message held under each of `tags`.
fn put_held<S: Store>(out: &mut LineAnswer, store: &S, tags: Tags) {
    for index in 0..tags.count {
        let holder = tags.holder(index, Taker::Get);
        put_entry(out, store.held(&holder, tags.arrival(index)));
    }
}

/// Requeues the message held under each of `tags`, and appends the number of requeued messages.
fn put_released<S: Store>(out: &mut LineAnswer, store: &mut S, tags: Tags) {
    let mut released: u64 = 0;
    for index in 0..tags.count {
        let holder = tags.holder(index, Taker::Get);
        released = released.saturating_add(u64::from(store.release(&holder, tags.arrival(index))));
    }
    put_count(out, released);
}

/// Removes the message held under each of `tags`, and appends it.
fn put_removed<S: Store>(out: &mut LineAnswer, store: &mut S, tags: Tags) {
    for index in 0..tags.count {
        let holder = tags.holder(index, Taker::Get);
        let entry = store.remove(&holder, tags.arrival(index));
        put_entry(out, entry.as_ref());
    }
}

/// Makes the call `name` for each of `tags`, and appends its result.
pub(crate) fn put_each<S: Store>(out: &mut LineAnswer, store: &mut S, name: &str, tags: Tags) {
    match name {
        "held" => put_held(out, store, tags),
        "release" => put_released(out, store, tags),
        "remove" => put_removed(out, store, tags),
        _ => out.fail(Unanswered::Form),
    }
}
