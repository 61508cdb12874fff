//! The channel slots of a connection, by channel number.

ghost use Rattle.std.specs.Prelude.{◌≡◌, ◌+◌, ◌<◌, ◌≤◌, ◌^◌, ◌∷◌, ◌++◌, None, Option, Some, IsSome, IfOk, OnOk, OnErr, replicate, slice_index_or, List, map};
ghost use Rattle.std.specs.Prelude.{min, sum_by, option_map, length, vec_capacity, vec_len, ℕ};
ghost use Rattle.channels.specs.Moving.{open_moved};
ghost use Rattle.channels.specs.ConnectionsMoving.{channels_moved};
ghost use Rattle.model.specs.Words.{Text as Name};
ghost use Rattle.model.specs.Broker.{new_channel};
ghost use Rattle.model.specs.Step.{greatest};
ghost use Rattle.channels.specs.Open.{Open, open_in};
ghost use Rattle.channels.specs.RunningConnections.{IsChannelSet};
ghost use Rattle.channels.specs.Counting.{consumers_at};
ghost use Rattle.channels.specs.Waking.{AreWoken};

use crate::channels::Channel;
use crate::waking::Wakes;
use std::alloc::{AllocError, Global};
use std::mem;

/// Makes slots for channels 0 to `count`, of which all but 0 are open and new. Fails only if an allocation fails.
pub(crate) fn open_channels(alloc: Global, count: u16) -> Result<Vec<Option<Channel>>, AllocError>
    ensures { IfOk result (λ channels. (names : List Name) → map (option_map (open_in names)) channels.items ≡ None ∷ replicate count (Some new_channel)) }
{
    let mut channels = Vec::new(alloc);
    channels.reserve(count as usize + 1)?;
    channels.push_reserved(None);
    for number in 0..count {
        channels.push_reserved(Some(Channel::new(alloc)));
    }
    Ok(channels)
}

/// Appends `more` empty slots. Fails only if an allocation fails; nothing has changed then.
fn grow(channels: &mut Vec<Option<Channel>>, more: usize) -> Result<(), AllocError>
    ensures ok { OnOk result (channels.new.items ≡ channels.old.items ++ replicate more None) }
    ensures err { OnErr result (channels.new.items ≡ channels.old.items) }
    ensures full { OnErr result (vec_capacity channels.old < vec_len channels.old + more) }
{
    channels.reserve(more)?;
    for _ in 0..more {
        channels.push_reserved(None);
    }
    Ok(())
}

/// Puts `channel` at this number, whether or not a channel was open there. Makes slots up to that number.
/// Fails only if there is no slot for it yet and the allocation fails; nothing has changed then.
pub(crate) fn open_at(
    channels: &mut Vec<Option<Channel>>,
    number: u16,
    channel: Channel,
) -> Result<(), AllocError>
    ensures ok { OnOk result (IsChannelSet channels.old.items number (Some channel) channels.new.items) }
    ensures err { OnErr result (channels.new.items ≡ channels.old.items) }
    ensures full { OnErr result (vec_len channels.old ≤ number) }
    ensures few { (n : ℕ) → vec_len channels.old ≤ n → number < n → vec_len channels.new ≤ n }
{
    let at = number as usize;
    let more = (at + 1).saturating_sub(channels.len());
    grow(channels, more)?;
    channels[at] = Some(channel);
    Ok(())
}

/// Replaces the open channel with this number by `channel`, or removes it if that is `None`, and returns it.
pub(crate) fn put_at(
    channels: &mut [Option<Channel>],
    number: u16,
    channel: Option<Channel>,
) -> Option<Channel>
    requires { IsSome (slice_index_or channels.old number None) }
    ensures set { IsChannelSet channels.old number channel channels.new }
    ensures before { result ≡ slice_index_or channels.old number None }
{
    let at = number as usize;
    if at < channels.len() {
        return mem::replace(&mut channels[at], channel);
    }
    None
}

/// Remembers `place` for the consumer with number `number` of the channel in `slot`, if it exists.
fn set_place_in(slot: &mut Option<Channel>, number: u64, place: usize)
    ensures { slot.new ≡ slot.old }
{
    if let Some(channel) = slot {
        channel.seat(number, place);
    }
}

/// Remembers `place` for the consumer with number `number` of channel `at`, if it exists.
pub(crate) fn set_place_at(channels: &mut [Option<Channel>], at: u16, number: u64, place: usize)
    ensures { channels.new ≡ channels.old }
{
    let at = at as usize;
    if at < channels.len() {
        set_place_in(&mut channels[at], number, place);
    }
}

/// Wakes each consumer of channel `number`, in `slot`, that can take a message now.
fn wake_in<W: Wakes>(slot: &mut Option<Channel>, connection: u64, number: u16, waker: &mut W)
    ensures same { slot.new ≡ slot.old }
    ensures awake { (ch : Open) → slot.old ≡ Some ch → AreWoken (λ q. W.is_awake waker.new q connection number) ch }
    ensures stay { (q c h n : ℕ) → W.is_awake waker.old q c h n → W.is_awake waker.new q c h n }
    ensures on { (start : W) → W.goes_on start waker.old → W.goes_on start waker.new }
{
    let Some(channel) = slot else {
        return;
    };
    channel.wake(connection, number, waker);
}

/// Wakes each consumer of channel `number` that can take a message now.
pub(crate) fn wake_at<W: Wakes>(
    channels: &mut [Option<Channel>],
    connection: u64,
    number: u16,
    waker: &mut W,
)
    ensures same { channels.new ≡ channels.old }
    ensures awake { (ch : Open) → slice_index_or channels.old number None ≡ Some ch
        → AreWoken (λ q. W.is_awake waker.new q connection number) ch }
    ensures stay { (q c h n : ℕ) → W.is_awake waker.old q c h n → W.is_awake waker.new q c h n }
    ensures on { (start : W) → W.goes_on start waker.old → W.goes_on start waker.new }
{
    let at = number as usize;
    if at >= channels.len() {
        return;
    }
    wake_in(&mut channels[at], connection, number, waker);
}

/// Wakes each consumer of each of `channels` that can take a message now.
pub(crate) fn wake_channels<W: Wakes>(
    channels: &mut [Option<Channel>],
    connection: u64,
    waker: &mut W,
)
    requires { length channels.old ≤ 2 ^ 16 }
    ensures same { channels.new ≡ channels.old }
    ensures awake { (h : ℕ) (ch : Open) → slice_index_or channels.old h None ≡ Some ch
        → AreWoken (λ q. W.is_awake waker.new q connection h) ch }
    ensures stay { (q c h n : ℕ) → W.is_awake waker.old q c h n → W.is_awake waker.new q c h n }
    ensures on { (start : W) → W.goes_on start waker.old → W.goes_on start waker.new }
{
    for at in 0..channels.len() {
        wake_in(&mut channels[at], connection, at as u16, waker);
    }
}

/// Returns how many consumers of the channel in `slot`, if any, take from the queue at index `queue`.
fn consumers_in(slot: &Option<Channel>, queue: usize) -> usize
    ensures { result ≡ consumers_at queue slot.now }
{
    match slot {
        Some(channel) => channel.consumers_from(queue),
        None => 0,
    }
}

/// Returns how many consumers of all `channels` together take from the queue at index `queue`, at most `usize::MAX`.
pub(crate) fn count_consumers(channels: &[Option<Channel>], queue: usize) -> usize
    ensures { result ≡ min (sum_by (consumers_at queue) channels.now) greatest }
{
    let mut count: usize = 0;
    for slot in channels {
        count = count.saturating_add(consumers_in(slot, queue));
    }
    count
}

/// Sets each queue's index in the channel in `slot`, if any, to the one that `places` has for it.
fn renumber_in(slot: &mut Option<Channel>, places: &[usize])
    ensures { slot.new ≡ option_map (open_moved places.now) slot.old }
{
    if let Some(channel) = slot {
        channel.renumber(places);
    }
}

/// Sets each queue's index in each of `channels` to the one that `places` has for it.
pub(crate) fn renumber_each(channels: &mut [Option<Channel>], places: &[usize])
    ensures { channels.new ≡ channels_moved places.now channels.old }
{
    for slot in channels.iter_mut() {
        renumber_in(slot, places);
    }
}
