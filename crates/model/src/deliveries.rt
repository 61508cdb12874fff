//! Deliveries as channels and queues keep them: a queue is given by its index in the definitions file.

ghost use Rattle.std.specs.Prelude.{◌≡◌};
ghost use Rattle.model.specs.Placed.{is_waiting, holder_of_delivery};

use crate::messages::{Holder, Taker};

/// A channel, by its connection and its number there.
#[derive(Clone, Copy, PartialEq, Eq, Debug, Drop)]
pub struct ChannelId {
    pub connection: u64,
    pub number: u16,
}

/// A delivery on a channel. A settled one may stay in the channel's list for a while, with tag 0.
///
/// Source: AMQP 0-9-1, section 3.1.8, "Acknowledgements".
#[derive(Clone, Copy, PartialEq, Eq, Debug, Drop)]
pub struct Delivery {
    /// The delivery tag; 0 once the delivery is settled.
    pub tag: u64,
    /// The queue's index in the definitions file.
    pub queue: usize,
    /// The number of the message's arrival in its queue; once the delivery is settled, its delivery tag.
    pub arrival: u64,
    /// Who was given the message.
    pub by: Taker,
}

impl Delivery {
    /// Returns whether the delivery is unacknowledged.
    pub fn is_waiting(&self) -> bool
        ensures { result ≡ is_waiting self.now }
    {
        self.tag != 0
    }

    /// Returns the holder of the message, if it was given out on `channel`.
    pub fn holder(&self, channel: ChannelId) -> Holder
        ensures { result ≡ holder_of_delivery channel.connection channel.number self.now }
    {
        Holder {
            connection: channel.connection,
            channel: channel.number,
            tag: self.tag,
            by: self.by,
        }
    }
}
