//! The consumer that an event is about to make: its numbers, and its queue.

ghost use Rattle.std.specs.Prelude.{◌≡◌, option_map};
ghost use Rattle.commands.specs.NewConsumers.{consumed_by, consumed};

use crate::cores::Core;
use crate::picks::Pick;
use crate::refusals::judge_consume;
use model::{Consume, Event, Method, Text};

/// Returns the name of the queue from which `method` consumes, if it is a consume.
fn consumed_by(method: &Method) -> Option<&Text>
    ensures { option_map (λ q. q.now) result ≡ consumed_by method.now }
{
    match method {
        Method::BasicConsume(consume) => Some(&consume.queue),
        _ => None,
    }
}

/// Returns the name of the queue from which `event` consumes, if it is a consume.
fn consumed(event: &Event) -> Option<&Text>
    ensures { option_map (λ q. q.now) result ≡ consumed event.now }
{
    match event {
        Event::Command { method, .. } => consumed_by(method),
        _ => None,
    }
}

impl Core {
    ghost use Rattle.std.specs.Prelude.{◌≡◌, ◌<◌, ℕ, Some, IfSome, length};
    ghost use Rattle.channels.specs.RunningConnections.{running_in};
    ghost use Rattle.commands.specs.State.{topology_kept};
    ghost use Rattle.commands.specs.NewConsumers.{consumer_made_on, consumer_to_make, IsConsumed, IsNewest};
    ghost use Rattle.model.specs.declared.methods.Method.TheVariants.{BasicConsume};

    /// Returns the numbers of the consumer that `consume` makes on this channel; each consumer of the channel has a smaller number. `None` if the
    /// consume is refused, or the connection is not running.
    fn consumer_made_on(&self, connection: u64, channel: u16, consume: &Consume) -> Option<Pick>
        ensures numbers { result ≡ consumer_made_on self.now connection channel (BasicConsume consume.now) (running_in self.now.connections connection) }
        ensures newest { IfSome result (IsNewest self.now) }
    {
        let running = self.connections.get(connection)?;
        if judge_consume(self.depot.topology(), running, channel, consume).is_some() {
            return None;
        }
        let number = running.next_number(channel)?;
        Some(Pick {
            connection,
            channel,
            number,
        })
    }

    /// Returns the numbers of the consumer that `event` is going to make; each consumer of its channel has a smaller number. `None` if the event is
    /// not a consume, or is refused.
    pub fn consumer_to_make(&self, event: &Event) -> Option<Pick>
        ensures numbers { result ≡ consumer_to_make self.now event.now }
        ensures newest { IfSome result (IsNewest self.now) }
    {
        match event {
            Event::Command {
                connection,
                channel,
                method: Method::BasicConsume(consume),
                ..
            } => self.consumer_made_on(*connection, *channel, consume),
            _ => None,
        }
    }

    /// Returns the index of the queue from which `event` consumes, if the queue exists.
    pub fn queue_consumed(&self, event: &Event) -> Option<usize>
        ensures within { IfSome result (λ i. i < length (topology_kept self.now).queues) }
        ensures reported { (place : ℕ) → IsConsumed (topology_kept self.now) event.now place → result ≡ Some place }
    {
        let name = consumed(event)?;
        self.depot.ghost_is_whole();
        self.depot.topology().queue_at(name.as_bytes())
    }
}
