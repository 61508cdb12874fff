//! The turn of a message at one of the queues that it is routed to.

use model::{Message, Text};

/// A turn: `message` is to be appended to the queue at index `place`, named `name`, which refuses it if it is full then.
#[derive(Drop)]
pub(crate) struct PlannedTurn {
    pub(crate) place: usize,
    pub(crate) name: Text,
    pub(crate) message: Message,
}
