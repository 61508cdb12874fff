//! The two ways to give a message out.

use model::{Holder, Text};

/// How a message is given out. Source: AMQP 0-9-1, basic.get and basic.consume, "no-ack".
#[derive(Drop)]
pub enum Giving {
    /// It is held by this holder.
    Held(Holder),
    /// It needs no acknowledgement and leaves the queue, which has this name.
    Out(Text),
}
