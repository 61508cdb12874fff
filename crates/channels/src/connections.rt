//! The running connections, and their channels.
//!
//! A connection is looked up by its number in a map, and a channel by its number in its connection's vector.

ghost use Rattle.std.specs.Prelude.{◌≡◌, min};
ghost use Rattle.model.specs.Step.{greatest};
ghost use Rattle.channels.specs.Counting.{CountsConsumers, all_consumers};
ghost use Rattle.channels.specs.ConnectionsMoving.{connections_moved, MovesAreUnseen};
ghost use Rattle.channels.specs.Lends.{LentArePut};

use crate::channels::Channel;
use crate::running::RunningConnection;
use crate::waking::Wakes;
use model::Delivery;
use std::alloc::{AllocError, Global};
use std::collections::HashMap;
use std::marker::Model;

/// The running connections, by number.
#[derive(Drop)]
pub struct RunningConnections {
    connections: HashMap<u64, RunningConnection>,
}

impl Model for RunningConnections {
    ghost use Rattle.std.specs.Prelude.{ℕ, List};
    ghost use Rattle.channels.specs.RunningConnections.{Running};

    ghost Value = { List (ℕ × Running) };

    ghost view = { λ l. l.connections.entries };
}

impl RunningConnections {
    ghost use Rattle.std.specs.Prelude.{◌≡◌, ◌+◌, ◌*◌, ◌<◌, ◌≤◌, length, [], ℕ, None, Some, IsSome, IfOk, OnOk, OnErr, Decides};
    ghost use Rattle.std.specs.Option.{option_copied, option_copied_mut};
    ghost use Rattle.std.specs.Borrow.{sem};
    ghost use Rattle.channels.specs.Lends.{LendsConnection, LendsChannel};
    ghost use Rattle.model.specs.Broker.{with_one, with_row};
    ghost use Rattle.model.specs.Placed.{waiting};
    ghost use Rattle.channels.specs.Counting.{CountsConsumers, HasChannels, HasTaker, is_consumed};
    ghost use Rattle.channels.specs.Waking.{AreWokenOn};
    ghost use Rattle.channels.specs.ConnectionsMoving.{connections_moved};
    ghost use Rattle.channels.specs.RunningConnections.{running_in, connection_of, channel_of, outstanding_on, PutsChannel, OpensConnection, HoldsConnections};
    ghost use Rattle.channels.specs.RunningConnections.{HasPlacesBelow, SetsPaused};

    /// Makes an empty list of connections. Never allocates.
    pub fn new(alloc: Global) -> RunningConnections
        ensures { result ≡ [] }
    {
        RunningConnections {
            connections: HashMap::new(alloc),
        }
    }

    /// Returns the connection with this number, if it is running.
    pub fn get(&self, connection: u64) -> Option<&RunningConnection>
        ensures { option_copied result ≡ running_in self.now connection }
    {
        self.connections.get(&connection)
    }

    /// Returns the open channel with this number, if its connection is running.
    pub fn channel(&self, connection: u64, number: u16) -> Option<&Channel>
        ensures { option_copied result ≡ channel_of self.now connection number }
    {
        match self.get(connection) {
            Some(running) => running.channel(number),
            None => None,
        }
    }

    /// Borrows the connection with this number mutably, if it is running.
    pub fn running_mut(&mut self, connection: u64) -> Option<&mut RunningConnection>
        ensures* writes_back { sem 𝓛 (LendsConnection self.entry connection result) }
        ensures value { option_copied_mut result ≡ running_in self.old connection }
    {
        self.connections.get_mut(&connection)
    }

    /// Borrows the open channel with these numbers mutably.
    pub fn channel_mut(&mut self, connection: u64, number: u16) -> Option<&mut Channel>
        ensures* writes_back { sem 𝓛 (LendsChannel self.entry connection number result) }
        ensures value { option_copied_mut result ≡ channel_of self.old connection number }
    {
        match self.connections.get_mut(&connection) {
            Some(running) => running.channel_mut(number),
            None => None,
        }
    }

    /// Returns the unacknowledged deliveries of a channel in tag order. Settled entries may be among them: at most as many as are unacknowledged,
    /// plus 32. Empty if the channel is not open, or its connection is not running.
    pub fn outstanding(&self, connection: u64, number: u16) -> &[Delivery]
        ensures all { waiting result.now ≡ outstanding_on (channel_of self.now connection number) }
        ensures few { length result.now ≤ 2 * length (outstanding_on (channel_of self.now connection number)) + 32 }
    {
        match self.get(connection) {
            Some(running) => running.outstanding(number),
            None => &[],
        }
    }

    /// Returns how many consumers on all channels together take from the queue at index `queue`, at most `usize::MAX`. Looks at
    /// every channel. Never allocates.
    pub fn count_consumers(&self, queue: usize) -> usize
        ensures { CountsConsumers self.now queue result }
    {
        count_consumers(&self.connections, queue)
    }

    /// Returns whether some consumer on some channel takes from the queue at index `queue`. Looks at every channel. Never
    /// allocates.
    pub fn is_consumed(&self, queue: usize) -> bool
        ensures { result ≡ is_consumed self.now queue }
    {
        count_consumers(&self.connections, queue) != 0
    }

    /// Shows that `is_consumed` holds of a queue exactly if some channel has a consumer that takes from it. Does nothing at run time.
    pub fn ghost_takers_are_found(&self)
        ensures { (queue : ℕ) → Decides (is_consumed self.now queue) (HasTaker self.now queue) }
    {
        self.connections.values();
    }

    /// Shows that some list of distinct channels has every open one. Does nothing at run time.
    pub fn ghost_channels_are_listed(&self)
        ensures { HasChannels self.now }
    {
        self.connections.values();
    }

    /// Makes `connection` a running one, with channels 1 to `channels` open and new, and no slots for others. Returns the earlier connection of
    /// this number, if any. Fails only if an allocation fails; nothing has changed then.
    pub fn open(
        &mut self,
        alloc: Global,
        connection: u64,
        channel_max: u16,
        channels: u16,
    ) -> Result<Option<RunningConnection>, AllocError>
        ensures ok { OnOk result (OpensConnection self.old connection channel_max channels self.new) }
        ensures before { IfOk result (λ running. running ≡ running_in self.old connection) }
        ensures few { OnOk result (HasPlacesBelow self.new connection (channels + 1)) }
        ensures err { OnErr result (self.new ≡ self.old) }
    {
        let running = RunningConnection::new(alloc, channel_max, channels)?;
        match self.connections.insert(connection, running) {
            Ok(before) => Ok(before),
            Err(_) => Err(AllocError),
        }
    }

    /// Removes the connection with its channels, and returns it.
    pub fn remove(&mut self, connection: u64) -> Option<RunningConnection>
        ensures holds { HoldsConnections self.new (with_one (connection_of self.old) connection None) (with_row (channel_of self.old) connection (λ h. None)) }
        ensures before { result ≡ running_in self.old connection }
    {
        self.connections.remove(&connection)
    }

    /// Sets whether the connection is paused, if it is running.
    pub fn set_paused(&mut self, connection: u64, is_paused: bool)
        ensures { SetsPaused self.old connection is_paused self.new }
    {
        if let Some(running) = self.connections.get_mut(&connection) {
            running.set_paused(is_paused);
        }
    }

    /// Puts `channel` at this number, whether or not a channel was open there. Makes slots up to that number. Fails only if the connection has no
    /// slot for it yet and the allocation fails; nothing has changed then.
    pub fn open_channel(
        &mut self,
        connection: u64,
        number: u16,
        channel: Channel,
    ) -> Result<(), AllocError>
        requires { IsSome (running_in self.old connection) }
        ensures ok { OnOk result (PutsChannel self.old connection number (Some channel) self.new) }
        ensures err { OnErr result (self.new ≡ self.old) }
        ensures full { OnErr result (HasPlacesBelow self.old connection number) }
        ensures few { (n : ℕ) → HasPlacesBelow self.old connection n → number < n → HasPlacesBelow self.new connection n }
    {
        match self.connections.get_mut(&connection) {
            Some(running) => running.open_channel(number, channel),
            None => Ok(()),
        }
    }

    /// Replaces the open channel with this number by `channel`, or removes it if that is `None`, and returns it.
    pub fn put(&mut self, connection: u64, number: u16, channel: Option<Channel>) -> Option<Channel>
        requires { IsSome (channel_of self.old connection number) }
        ensures put { PutsChannel self.old connection number channel self.new }
        ensures before { result ≡ channel_of self.old connection number }
    {
        match self.connections.get_mut(&connection) {
            Some(running) => running.put(number, channel),
            None => None,
        }
    }

    /// Remembers `place` as the guess of the index of the consumer with this number on the channel, among those of its queue. Does
    /// nothing if there is no such consumer.
    pub fn seat(&mut self, connection: u64, channel: u16, number: u64, place: usize)
        ensures { self.new ≡ self.old }
    {
        if let Some(running) = self.connections.get_mut(&connection) {
            running.seat(channel, number, place);
        }
    }

    /// Wakes each consumer of the channel, or of each channel of the connection if there is no number, that can take a message once the connection
    /// isn't paused, by `waker`. Never allocates.
    pub fn wake<W: Wakes>(&mut self, connection: u64, channel: Option<u16>, waker: &mut W)
        ensures same { self.new ≡ self.old }
        ensures awake { AreWokenOn (λ q. W.is_awake waker.new q connection) (channel_of self.old connection) channel }
        ensures stay { (q c h n : ℕ) → W.is_awake waker.old q c h n → W.is_awake waker.new q c h n }
        ensures on { (start : W) → W.goes_on start waker.old → W.goes_on start waker.new }
    {
        if let Some(running) = self.connections.get_mut(&connection) {
            running.wake(connection, channel, waker);
        }
    }

    /// Sets each queue's index to the one that `indices` has for it. Never allocates.
    pub fn renumber(&mut self, indices: &[usize])
        ensures { self.new ≡ connections_moved indices.now self.old }
    {
        renumber_all(&mut self.connections, indices);
    }
}

/// Shows that writing to an open channel that was borrowed by its number changes that channel and no other. Does nothing at run
/// time.
pub fn ghost_lent_channels_are_put()
    ensures { LentArePut }
{}

/// Shows that the model sees no difference on the channels if each queue that they name has the same name at its new index. Does nothing at run time.
pub fn ghost_moves_are_unseen()
    ensures { MovesAreUnseen }
{}

/// Sets the index of each queue that the channels of `connections` name to the one that `places` has for it.
fn renumber_all(connections: &mut HashMap<u64, RunningConnection>, places: &[usize])
    ensures { connections.new.entries ≡ connections_moved places.now connections.old.entries }
{
    connections.retain(|_, running| {
        running.renumber(places);
        true
    });
}

/// Returns how many consumers on all channels of `connections` take from the queue at index `queue`, at most `usize::MAX`.
fn count_consumers(connections: &HashMap<u64, RunningConnection>, queue: usize) -> usize
    ensures counts { CountsConsumers connections.now.entries queue result }
    ensures all { result ≡ min (all_consumers connections.now.entries queue) greatest }
{
    let mut count: usize = 0;
    for running in connections.values() {
        count = count.saturating_add(running.count_consumers(queue));
    }
    count
}
