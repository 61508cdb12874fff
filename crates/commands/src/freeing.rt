//! Requeues the unacknowledged deliveries of a connection. Its channels list them: no queue is searched.

ghost use Rattle.std.specs.Prelude.{◌≡◌, ℕ};
ghost use Rattle.std.specs.Option.{option_copied};
ghost use Rattle.channels.specs.RunningConnections.{channel_at, channel_in, outstanding_on};
ghost use Rattle.model.specs.Placed.{AreWithin};
ghost use Rattle.commands.specs.Freed.{AreReturnedFrom, AreReturnedAt};

use channels::RunningConnection;
use depot::Depot;
use model::ChannelId;

/// Requeues the unacknowledged deliveries of `connection`, channel by channel: each message is ready again in its place, and marked redelivered.
/// Never allocates.
fn requeue_channels(depot: &mut Depot, connection: u64, running: &RunningConnection)
    requires { (h : ℕ) → AreWithin depot.old.topology (outstanding_on (channel_in running.now h)) }
    ensures { AreReturnedFrom connection 0 depot.old running.now.channels depot.new }
{
    for place in 0..running.slots() {
        let number = place as u16;
        depot.requeue(
            ChannelId { connection, number },
            running.outstanding(number),
        );
    }
}

/// Requeues the unacknowledged deliveries of `connection` if it is running, as [`requeue_channels`] does.
pub(crate) fn requeue_all(depot: &mut Depot, connection: u64, running: Option<&RunningConnection>)
    requires { (h : ℕ) → AreWithin depot.old.topology (outstanding_on (channel_at (option_copied running) h)) }
    ensures { AreReturnedAt connection depot.old (option_copied running.entry) depot.new }
{
    if let Some(running) = running {
        requeue_channels(depot, connection, running);
    }
}
