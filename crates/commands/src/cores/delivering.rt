//! Delivers messages to consumers. Source: AMQP 0-9-1, basic.deliver.

use crate::cores::Core;
use crate::delivering::deliver_on;
use crate::picks::{Pick, Taking};
use channels::{Wakes, ghost_lent_channels_are_put};
use depot::ghost_indices_are_named;
use replies::Step;
use std::alloc::{AllocError, Global};

impl Core {
    ghost use Rattle.std.specs.Prelude.{◌≡◌, IfOk, OnErr};
    ghost use Rattle.model.specs.Agreement.{IsAgreed};
    ghost use Rattle.commands.specs.State.{broker_of, topology_kept};
    ghost use Rattle.commands.specs.Picked.{AddressesTo, IsPick, DeliversTo, IsNextPicked, ReturnsTaking};
    ghost use Rattle.commands.specs.Woken.{AreUp};

    /// Returns how many messages have entered queues whose consumers lag behind.
    pub fn lagged(&self) -> u64 {
        self.depot.lagged()
    }

    /// Returns the index of the first queue at or after `from` with a ready message.
    pub fn next_ready(&self, from: usize) -> Option<usize>
        ensures { IsNextPicked self.now from result }
    {
        self.depot.ghost_is_whole();
        ghost_indices_are_named();
        self.depot.next_ready(from)
    }

    /// Returns whether the consumer `pick` exists and can take a message now, and the index of its queue. Its connection is looked up
    /// once.
    pub fn taking(&self, pick: Pick) -> Taking
        ensures { ReturnsTaking self.now pick result }
    {
        let Some(running) = self.connections.get(pick.connection) else {
            return Taking::Gone;
        };
        if let Some(consumer) = running.taker(pick.channel, pick.number) {
            return Taking::From(consumer.queue);
        }
        match running.consumer(pick.channel, pick.number) {
            Some(consumer) => Taking::Nothing(consumer.queue),
            None => Taking::Gone,
        }
    }

    /// Remembers `place` as a guess of the index of the consumer `pick` in the order of its queue's consumers.
    pub fn seat(&mut self, pick: Pick, place: usize)
        ensures { self.new ≡ self.old }
    {
        self.connections
            .seat(pick.connection, pick.channel, pick.number, place);
    }

    /// Wakes the waiters of the consumers of `connection` that can take a message now: of those of `channel`, or of all channels if that is `None`. Each
    /// is looked for where it was found the last time. Never allocates.
    pub fn wake<W: Wakes>(&mut self, connection: u64, channel: Option<u16>, waker: &mut W)
        ensures same { self.new ≡ self.old }
        // Each of these consumers is awake, or can't take a message now.
        ensures awake { AreUp connection channel (W.is_awake waker.new) self.old }
        ensures on { (start : W) → W.goes_on start waker.old → W.goes_on start waker.new }
    {
        self.connections.wake(connection, channel, waker);
    }

    /// Delivers the first ready message of its queue to the consumer `pick`, to which a delivery can be made. The message leaves the queue if it needs
    /// no acknowledgement. Fails only if an allocation fails; nothing has changed then.
    pub fn deliver(&mut self, alloc: Global, pick: Pick) -> Result<Step, AllocError>
        requires agreed { IsAgreed (broker_of self.old) }
        requires picked { IsPick (broker_of self.old) pick }
        // The promise: this delivery, whose send goes to the consumer's connection.
        ensures ok { IfOk result (λ s. DeliversTo (broker_of self.old) pick s.sends.items s.notes.items (broker_of self.new)) }
        ensures addressed { IfOk result (λ s. AddressesTo (topology_kept self.old) (broker_of self.old) pick.connection s.sends.items) }
        // The frame; a failure changes nothing.
        ensures topology { topology_kept self.new ≡ topology_kept self.old }
        ensures err { OnErr result (self.new ≡ self.old) }
    {
        ghost_lent_channels_are_put();
        match self.connections.channel_mut(pick.connection, pick.channel) {
            Some(channel) => deliver_on(alloc, pick, channel, &mut self.depot),
            None => Ok(Step::nothing(alloc)),
        }
    }
}
