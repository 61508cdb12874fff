//! Messages that are about to leave a queue.

use model::{Delivery, Text};

/// The message of a delivery that is about to leave its queue, with the queue's name.
#[derive(Drop)]
pub(crate) struct Departure {
    pub(crate) given: Delivery,
    pub(crate) queue: Text,
}
