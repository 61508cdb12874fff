//! A running connection, with its channels.

use crate::channels::Channel;
use crate::consumers::Consumer;
use crate::slots::{
    count_consumers, open_at, open_channels, put_at, renumber_each, set_place_at, wake_at,
    wake_channels,
};
use crate::waking::Wakes;
use model::Delivery;
use std::alloc::{AllocError, Global};
use std::marker::Model;

/// A running connection.
#[derive(Drop)]
pub struct RunningConnection {
    channel_max: u16,
    is_paused: bool,
    /// The open channels, by number.
    channels: Vec<Option<Channel>>,
}

impl Model for RunningConnection {
    ghost use Rattle.std.specs.Prelude.{◌≤◌, ◌^◌, vec_len};
    ghost use Rattle.channels.specs.RunningConnections.{Running};

    ghost Value = { Running };

    ghost view = { λ l. record { channel_max = l.channel_max; is_paused = l.is_paused; channels = l.channels.items } };

    ghost invariant = { λ l. vec_len l.channels ≤ 2 ^ 16 };
}

impl RunningConnection {
    ghost use Rattle.std.specs.Prelude.{◌≡◌, ◌<◌, ◌≤◌, ◌+◌, ◌*◌, ◌^◌, ℕ, List, length, min, None, Some, false};
    ghost use Rattle.std.specs.Prelude.{IsSome, IfSome, IfOk, OnOk, OnErr, option_map, option_copied};
    ghost use Rattle.std.specs.Option.{option_copied_mut};
    ghost use Rattle.std.specs.Borrow.{sem};
    ghost use Rattle.model.specs.Words.{Text as Name};
    ghost use Rattle.model.specs.Step.{channels_up_to, greatest};
    ghost use Rattle.model.specs.Placed.{waiting};
    ghost use Rattle.channels.specs.Open.{open_in};
    ghost use Rattle.channels.specs.Consumers.{ReturnsConsumerOn, IsOneOn, AreBelow, consumer_numbered, next_number};
    ghost use Rattle.channels.specs.Counting.{consumers_counted};
    ghost use Rattle.channels.specs.ConnectionsMoving.{running_moved};
    ghost use Rattle.channels.specs.RunningConnections.{channel_in, outstanding_on, PutsIn};
    ghost use Rattle.channels.specs.Lends.{LendsChannelIn};
    ghost use Rattle.channels.specs.Waking.{AreWokenOn};

    /// Makes a connection with channels 1 to `channels` open and new. Fails only if an allocation fails.
    pub(crate) fn new(
        alloc: Global,
        channel_max: u16,
        channels: u16,
    ) -> Result<RunningConnection, AllocError>
        ensures max { IfOk result (λ l. l.channel_max ≡ channel_max) }
        ensures paused { IfOk result (λ l. l.is_paused ≡ false) }
        ensures channels { IfOk result (λ l. (names : List Name) (h : ℕ) → option_map (open_in names) (channel_in l h) ≡ channels_up_to channels h) }
        ensures slots { IfOk result (λ l. length l.channels ≡ channels + 1) }
    {
        Ok(RunningConnection {
            channel_max,
            is_paused: false,
            channels: open_channels(alloc, channels)?,
        })
    }

    /// Returns the greatest channel number that was agreed on.
    pub fn channel_max(&self) -> u16
        ensures { result ≡ self.now.channel_max }
    {
        self.channel_max
    }

    /// Returns the open channel with this number.
    pub fn channel(&self, number: u16) -> Option<&Channel>
        ensures { option_copied result ≡ channel_in self.now number }
    {
        match self.channels.get(number as usize) {
            Some(Some(channel)) => Some(channel),
            _ => None,
        }
    }

    /// Borrows the open channel with this number mutably, if there is one.
    pub fn channel_mut(&mut self, number: u16) -> Option<&mut Channel>
        ensures* writes_back { sem 𝓛 (LendsChannelIn self.entry number result) }
        ensures value { option_copied_mut result ≡ channel_in self.old number }
    {
        match self.channels.get_mut(number as usize) {
            Some(slot) => slot.as_mut(),
            None => None,
        }
    }

    /// Returns the number of channel slots. Slot 0 is for channel 0, and no channel past the last slot is open.
    pub fn slots(&self) -> usize
        ensures slots { result ≡ length self.now.channels }
        ensures few { result ≤ 2 ^ 16 }
    {
        self.channels.len()
    }

    /// Returns the unacknowledged deliveries of a channel in tag order. Settled entries may be among them: at most as many as are unacknowledged,
    /// plus 32. Empty if the channel is not open.
    pub fn outstanding(&self, number: u16) -> &[Delivery]
        ensures all { waiting result.now ≡ outstanding_on (channel_in self.now number) }
        ensures few { length result.now ≤ 2 * length (outstanding_on (channel_in self.now number)) + 32 }
    {
        match self.channel(number) {
            Some(channel) => channel.outstanding(),
            None => &[],
        }
    }

    /// Returns the number of this channel's next consumer: 1 if it is not open, `None` if it awaits close-ok. Each consumer has a smaller
    /// one.
    pub fn next_number(&self, number: u16) -> Option<u64>
        ensures next { result ≡ next_number (channel_in self.now number) }
        ensures above { IfSome result (AreBelow (channel_in self.now number)) }
    {
        let Some(channel) = self.channel(number) else {
            return Some(1);
        };
        if channel.is_closing() {
            return None;
        }
        Some(channel.next_number())
    }

    /// Returns the consumer with this number on the channel, if that is open and has it.
    pub fn consumer(&self, channel: u16, number: u64) -> Option<&Consumer>
        ensures found { option_map (λ k. k.now) result ≡ consumer_numbered (channel_in self.now channel) number }
        ensures one { IfSome result (λ k. IsOneOn self.now channel number k.now) }
    {
        match self.channel(channel) {
            Some(channel) => channel.consumer(number),
            None => None,
        }
    }

    /// Returns the consumer with this number on the channel if it can take a message now: the connection is not paused, the channel is open and does
    /// not await close-ok, and it has the consumer, which may take one ([`Channel::taker`]).
    pub fn taker(&self, channel: u16, number: u64) -> Option<&Consumer>
        ensures { ReturnsConsumerOn self.now channel number (option_map (λ k. k.now) result) }
    {
        if self.is_paused {
            return None;
        }
        let channel = self.channel(channel)?;
        if channel.is_closing() {
            return None;
        }
        channel.taker(number)
    }

    /// Returns how many consumers on its channels take from the queue at index `queue`, at most `usize::MAX`.
    pub(crate) fn count_consumers(&self, queue: usize) -> usize
        ensures { result ≡ min (consumers_counted queue self.now) greatest }
    {
        count_consumers(&self.channels, queue)
    }

    /// Puts `channel` at this number, whether or not a channel was open there. Makes slots up to that number. Fails only if there is no slot for it
    /// yet and the allocation fails; nothing has changed then.
    pub(crate) fn open_channel(&mut self, number: u16, channel: Channel) -> Result<(), AllocError>
        ensures ok { OnOk result (PutsIn self.old number (Some channel) self.new) }
        ensures err { OnErr result (self.new ≡ self.old) }
        ensures full { OnErr result (length self.old.channels ≤ number) }
        ensures few { (n : ℕ) → length self.old.channels ≤ n → number < n → length self.new.channels ≤ n }
    {
        open_at(&mut self.channels, number, channel)
    }

    /// Replaces the open channel with this number by `channel`, or removes it if that is `None`, and returns it.
    pub(crate) fn put(&mut self, number: u16, channel: Option<Channel>) -> Option<Channel>
        requires { IsSome (channel_in self.old number) }
        ensures puts { PutsIn self.old number channel self.new }
        ensures before { result ≡ channel_in self.old number }
    {
        put_at(&mut self.channels, number, channel)
    }

    /// Remembers `place` for the consumer with number `number` on the channel, if it exists.
    pub(crate) fn seat(&mut self, channel: u16, number: u64, place: usize)
        ensures { self.new ≡ self.old }
    {
        set_place_at(&mut self.channels, channel, number, place);
    }

    /// Wakes each consumer of the channel, or of each channel if there is no number, that can take a message once the connection isn't paused, by
    /// `waker`. This is connection `connection`. Never allocates.
    pub fn wake<W: Wakes>(&mut self, connection: u64, channel: Option<u16>, waker: &mut W)
        ensures same { self.new ≡ self.old }
        ensures awake { AreWokenOn (λ q. W.is_awake waker.new q connection) (channel_in self.old) channel }
        ensures stay { (q c h n : ℕ) → W.is_awake waker.old q c h n → W.is_awake waker.new q c h n }
        ensures on { (start : W) → W.goes_on start waker.old → W.goes_on start waker.new }
    {
        match channel {
            Some(number) => wake_at(&mut self.channels, connection, number, waker),
            None => wake_channels(&mut self.channels, connection, waker),
        }
    }

    /// Sets whether the connection is paused.
    pub(crate) fn set_paused(&mut self, is_paused: bool)
        ensures { self.new ≡ record self.old { is_paused = is_paused } }
    {
        self.is_paused = is_paused;
    }

    /// Sets each queue's index to the one that `indices` has for it. Never allocates.
    pub(crate) fn renumber(&mut self, indices: &[usize])
        ensures { self.new ≡ running_moved indices.now self.old }
    {
        renumber_each(&mut self.channels, indices);
    }
}
