//! Dead letters that are going to enter their queues.

use model::Message;

/// A dead letter that is going to enter the queue at an index.
#[derive(Drop)]
pub(crate) struct Arrival {
    pub(crate) place: usize,
    pub(crate) message: Message,
}
