//! The consumer that a command is about to cancel.

use crate::cores::Core;
use channels::Seat;
use model::{ChannelId, Method};

impl Core {
    ghost use Rattle.std.specs.Prelude.{◌≡◌, false, IfNone, IfSome};
    ghost use Rattle.channels.specs.RunningConnections.{channel_of};
    ghost use Rattle.commands.specs.State.{channel_on};
    ghost use Rattle.commands.specs.Ended.{cancels_one, CancelsAt};

    /// Returns where the consumer waits that the command cancels if it is not refused. `None` if it cancels none.
    pub(crate) fn cancelled(&self, id: ChannelId, method: &Method) -> Option<Seat>
        ensures some { IfSome result (CancelsAt (channel_of self.now.connections id.connection id.number) method.now) }
        ensures none { IfNone result (cancels_one (channel_on self.now id.connection id.number) method.now ≡ false) }
    {
        let Method::BasicCancel(cancel) = method else {
            return None;
        };
        match self.connections.channel(id.connection, id.number) {
            Some(channel) => channel.tagged(cancel.consumer_tag.as_bytes()),
            None => None,
        }
    }
}
