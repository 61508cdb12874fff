//! The consumers of a channel, and what they may be given.

ghost use Rattle.std.specs.Prelude.{cond, ◌&&◌, ◌≡◌, ◌<◌, ◌≤◌, ◌-◌, ◌^◌, None, Some, IfSome, option_map, not, true, false};
ghost use Rattle.std.specs.Prelude.{length, map, find, filter, count_by, vec_len, vec_capacity};
ghost use Rattle.model.specs.declared.messages.Taker.TheVariants as taker;
ghost use Rattle.std.specs.List.{list_any, position_from, All};
ghost use Rattle.model.specs.Prefetch.{is_to, is_delivery, is_below, count_to};
ghost use Rattle.model.specs.Placed.{is_waiting, waiting};
ghost use Rattle.channels.specs.CountedConsumers.{consumers_of, is_numbered, has_name, takes_from, counted_in, counted_out, uncounted};
ghost use Rattle.channels.specs.CountedConsumers.{may_held, taker_held, IsConsumerAt, NumbersRise, number_given, NoneAbove};
ghost use Rattle.channels.specs.Moving.{counted_moved};
ghost use Rattle.channels.specs.Outstanding.{taker_of};

use crate::pending::place_now;
use model::{Delivery, Taker, Text};
use std::alloc::AllocError;

/// A consumer of a queue. Source: AMQP 0-9-1, basic.consume.
#[derive(Drop)]
pub struct Consumer {
    /// Its number on the channel: in the order in which consumers are made, and never used twice.
    pub number: u64,
    pub tag: Text,
    /// The index of its queue.
    pub queue: usize,
    pub no_ack: bool,
    /// Its prefetch: how many messages it may have unacknowledged; 0 is no limit.
    pub limit: u16,
}

/// A consumer with the number of its unacknowledged messages, and a guess of its index in the order of its queue's consumers.
#[derive(Drop)]
pub(crate) struct CountedConsumer {
    pub(crate) consumer: Consumer,
    pub(crate) held: usize,
    pub(crate) place: usize,
}

/// A consumer's number and queue, and where it may be among the consumers of its queue.
#[derive(Clone, Copy, PartialEq, Eq, Debug, Drop)]
pub struct Seat {
    /// Its number on its channel.
    pub number: u64,
    /// The index of its queue.
    pub queue: usize,
    /// A guess of its index in the order of its queue's consumers, which promises nothing.
    pub place: usize,
}

/// Why a consumer is refused, with the reply code.
#[derive(Clone, Copy, PartialEq, Eq, Debug, Drop)]
pub enum ConsumerRefusal {
    /// Its tag is in use on the channel: 530.
    InUse,
    /// The channel has 256 consumers: 506.
    TooMany,
    /// The consumer numbers, or the server's tags, are used up: 541.
    Spent,
}

/// Why a consumer was not made.
#[derive(Clone, Copy, PartialEq, Eq, Debug, Drop)]
pub enum ConsumeError {
    /// The consumer is refused for this reason.
    Refused(ConsumerRefusal),
    Memory,
}

impl From<ConsumerRefusal> for ConsumeError {
    ghost use Rattle.channels.specs.declared.consumers.ConsumeError.TheVariants.{Refused};

    ghost from_gives = { λ refusal why. why ≡ Refused refusal };

    fn from(refusal: ConsumerRefusal) -> ConsumeError {
        ConsumeError::Refused(refusal)
    }
}

impl From<AllocError> for ConsumeError {
    ghost use Rattle.channels.specs.declared.consumers.ConsumeError.TheVariants.{Memory};

    ghost from_gives = { λ _ why. why ≡ Memory };

    fn from(_: AllocError) -> ConsumeError {
        ConsumeError::Memory
    }
}

/// Returns whether some consumer has this tag.
pub(crate) fn is_in_use(consumers: &[CountedConsumer], tag: &[u8]) -> bool
    ensures { result ≡ list_any (has_name tag.now) consumers.now }
{
    consumers.iter().any(|s| s.consumer.tag.as_bytes() == tag)
}

/// Returns whether the consumer at index `place` has this number.
fn is_at(consumers: &[CountedConsumer], place: usize, number: u64) -> bool
    ensures { result ≡ true → IsConsumerAt consumers.now number place }
{
    place < consumers.len() && consumers[place].consumer.number == number
}

/// Returns the index of the first consumer with this number, by linear search.
fn search(consumers: &[CountedConsumer], number: u64) -> Option<usize>
    ensures is { result ≡ position_from (is_numbered number) 0 consumers.now }
    ensures some { IfSome result (λ place. IsConsumerAt consumers.now number place) }
{
    consumers.iter().position(|s| s.consumer.number == number)
}

/// Returns the index of the consumer with this number, by binary search, since numbers ascend. If it isn't found so, looks at each consumer, so that
/// `None` is right in any order.
pub(crate) fn place_of_consumer(consumers: &[CountedConsumer], number: u64) -> Option<usize>
    ensures some { IfSome result (λ place. IsConsumerAt consumers.now number place) }
    ensures none { result ≡ None → find (is_numbered number) consumers.now ≡ None }
{
    let place = consumers.partition_point(|s| s.consumer.number < number);
    if is_at(consumers, place, number) {
        return Some(place);
    }
    search(consumers, number)
}

/// Returns the counted consumer with this number, if it exists.
fn counted_consumer(consumers: &[CountedConsumer], number: u64) -> Option<&CountedConsumer>
    requires { NumbersRise (consumers_of consumers.now) }
    ensures { option_map (λ s. s.now) result ≡ find (is_numbered number) consumers.now }
{
    match place_of_consumer(consumers, number) {
        Some(place) => Some(&consumers[place]),
        None => None,
    }
}

/// Returns the consumer with this number.
pub(crate) fn consumer_of(consumers: &[CountedConsumer], number: u64) -> Option<&Consumer>
    requires { NumbersRise (consumers_of consumers.now) }
    ensures { option_map (λ k. k.now) result ≡ option_map (λ s. s.consumer) (find (is_numbered number) consumers.now) }
{
    match counted_consumer(consumers, number) {
        Some(counted) => Some(&counted.consumer),
        None => None,
    }
}

/// Returns how many consumers take from the queue at index `queue`.
pub(crate) fn count_from(consumers: &[CountedConsumer], queue: usize) -> usize
    ensures { result ≡ count_by (λ s. takes_from queue s.consumer) consumers.now }
{
    consumers
        .iter()
        .filter(|s| s.consumer.queue == queue)
        .count()
}

/// Removes the consumers with this tag.
pub(crate) fn remove_tagged(consumers: &mut Vec<CountedConsumer>, tag: &[u8])
    ensures consumers { consumers.new.items ≡ filter (λ s. not (has_name tag.now s)) consumers.old.items }
    ensures len { vec_len consumers.new ≤ vec_len consumers.old }
    ensures capacity { vec_capacity consumers.new ≡ vec_capacity consumers.old }
{
    consumers.retain(|s| s.consumer.tag.as_bytes() != tag);
}

/// Returns whether `by` is consumer `number`.
fn is_its(by: &Taker, number: u64) -> bool
    ensures { result ≡ is_to number by.now }
{
    match by {
        Taker::Get => false,
        Taker::Consumer(other) => *other == number,
    }
}

/// Returns whether `by` is a consumer, not a get.
fn is_consumed(by: &Taker) -> bool
    ensures { result ≡ is_delivery by.now }
{
    matches!(by, Taker::Consumer(_))
}

/// Returns the number of the consumer that `by` is; 0 for a get.
pub(crate) fn number_of(by: &Taker) -> u64
    ensures { result ≡ number_given by.now }
{
    match by {
        Taker::Get => 0,
        Taker::Consumer(number) => *number,
    }
}

/// Returns 1 if `by` is a consumer, 0 for a get.
pub(crate) fn one_if_consumed(by: &Taker) -> usize
    ensures { result ≡ cond (is_delivery by.now) 1 0 }
{
    if is_consumed(by) { 1 } else { 0 }
}

/// Returns how many unacknowledged deliveries of `given` went to the consumer with this number.
fn given_to(given: &[Delivery], number: u64) -> usize
    ensures { result ≡ count_by (λ o. is_waiting o && is_to number o.by) given.now }
{
    let mut count = 0;
    for one in given {
        if one.is_waiting() & is_its(&one.by, number) {
            count += 1;
        }
    }
    count
}

/// Returns how many unacknowledged deliveries of `given` went to the consumer with this number. No consumer with a number above `most` has any,
/// so `given` is not looked at for such a number.
pub(crate) fn held_by(given: &[Delivery], most: u64, number: u64) -> usize
    requires { NoneAbove most (waiting given.now) }
    ensures { result ≡ count_to taker_of number (waiting given.now) }
{
    if number > most {
        return 0;
    }
    given_to(given, number)
}

/// Returns how many unacknowledged deliveries of `given` went to consumers.
pub(crate) fn given_to_all(given: &[Delivery]) -> usize
    ensures { result ≡ count_by (λ o. is_waiting o && is_delivery o.by) given.now }
{
    let mut count = 0;
    for one in given {
        if one.is_waiting() & is_consumed(&one.by) {
            count += 1;
        }
    }
    count
}

/// Adds 1 to the count of the consumer with this number, if there is one.
fn count_one_in(consumers: &mut [CountedConsumer], number: u64)
    requires held { All (λ s. s.held < 2 ^ 64 - 1) consumers.old }
    requires rise { NumbersRise (consumers_of consumers.old) }
    ensures { consumers.new ≡ map (counted_in (taker.Consumer number)) consumers.old }
{
    if let Some(place) = place_of_consumer(consumers, number) {
        consumers[place].held += 1;
    }
}

/// Adds 1 to the count of the consumer that `by` is, if there is one.
pub(crate) fn count_in(consumers: &mut Vec<CountedConsumer>, by: &Taker)
    requires held { All (λ s. s.held < 2 ^ 64 - 1) consumers.old.items }
    requires rise { NumbersRise (consumers_of consumers.old.items) }
    ensures consumers { consumers.new.items ≡ map (counted_in by.now) consumers.old.items }
    ensures len { vec_len consumers.new ≡ vec_len consumers.old }
    ensures capacity { vec_capacity consumers.new ≡ vec_capacity consumers.old }
{
    match by {
        Taker::Get => {}
        Taker::Consumer(number) => count_one_in(consumers, *number),
    }
}

/// Subtracts 1 from the count of the consumer with this number, if there is one.
fn count_number_out(consumers: &mut [CountedConsumer], number: u64)
    requires { NumbersRise (consumers_of consumers.old) }
    ensures { consumers.new ≡ map (uncounted (taker.Consumer number)) consumers.old }
{
    if let Some(place) = place_of_consumer(consumers, number) {
        consumers[place].held = consumers[place].held.saturating_sub(1);
    }
}

/// If the delivery `one` is unacknowledged, subtracts 1 from the count of the consumer that it went to, if there is one.
fn count_waiting_out(consumers: &mut [CountedConsumer], one: &Delivery)
    requires { NumbersRise (consumers_of consumers.old) }
    ensures counted { is_waiting one.now ≡ true → consumers.new ≡ map (uncounted one.now.by) consumers.old }
    ensures gone_already { is_waiting one.now ≡ false → consumers.new ≡ consumers.old }
{
    if !one.is_waiting() {
        return;
    }
    match one.by {
        Taker::Get => {}
        Taker::Consumer(number) => count_number_out(consumers, number),
    }
}

/// Subtracts the unacknowledged deliveries of `gone` from the counts of the consumers that they went to, one after another.
fn count_each_out(consumers: &mut [CountedConsumer], gone: &[Delivery])
    requires { NumbersRise (consumers_of consumers.old) }
    ensures { consumers.new ≡ map (counted_out (waiting gone.now)) consumers.old }
{
    for one in gone {
        count_waiting_out(consumers, one);
    }
}

/// Subtracts the unacknowledged deliveries of `gone` from the counts of the consumers that they went to.
pub(crate) fn count_out(consumers: &mut Vec<CountedConsumer>, gone: &[Delivery])
    requires { NumbersRise (consumers_of consumers.old.items) }
    ensures consumers { consumers.new.items ≡ map (counted_out (waiting gone.now)) consumers.old.items }
    ensures len { vec_len consumers.new ≡ vec_len consumers.old }
    ensures capacity { vec_capacity consumers.new ≡ vec_capacity consumers.old }
{
    count_each_out(consumers, gone);
}

/// Returns whether the prefetch `limit` allows one more message than `held`; 0 is no limit.
fn is_room(limit: u16, held: usize) -> bool
    ensures { result ≡ is_below limit held }
{
    limit == 0 || held < limit as usize
}

/// Returns whether the consumer of `counted` may be given one more message: it needs no acknowledgements, or neither its own prefetch nor the
/// channel's `limit` is used up. All consumers of the channel together have `given` unacknowledged messages.
pub(crate) fn may_hold(counted: &CountedConsumer, limit: u16, given: usize) -> bool
    ensures { result ≡ may_held limit given (Some counted.now) }
{
    counted.consumer.no_ack
        || (is_room(counted.consumer.limit, counted.held) && is_room(limit, given))
}

/// Returns whether the consumer with this number exists and may be given one more message.
pub(crate) fn may_one(consumers: &[CountedConsumer], number: u64, limit: u16, given: usize) -> bool
    requires { NumbersRise (consumers_of consumers.now) }
    ensures { result ≡ may_held limit given (find (is_numbered number) consumers.now) }
{
    match counted_consumer(consumers, number) {
        Some(counted) => may_hold(counted, limit, given),
        None => false,
    }
}

/// Returns the consumer with this number if it exists and may be given one more message.
pub(crate) fn taker_of(
    consumers: &[CountedConsumer],
    number: u64,
    limit: u16,
    given: usize,
) -> Option<&Consumer>
    requires { NumbersRise (consumers_of consumers.now) }
    ensures { option_map (λ k. k.now) result ≡ taker_held limit given (find (is_numbered number) consumers.now) }
{
    match counted_consumer(consumers, number) {
        Some(counted) => {
            if may_hold(counted, limit, given) {
                Some(&counted.consumer)
            } else {
                None
            }
        }
        None => None,
    }
}

/// Replaces the queue index of each consumer by the one that `indices` has for it.
pub(crate) fn renumber(consumers: &mut Vec<CountedConsumer>, indices: &[usize])
    ensures consumers { consumers.new.items ≡ map (counted_moved indices.now) consumers.old.items }
    ensures len { vec_len consumers.new ≡ vec_len consumers.old }
    ensures capacity { vec_capacity consumers.new ≡ vec_capacity consumers.old }
{
    renumber_slice(consumers, indices);
}

/// Sets the queue's index of each consumer to the one that `places` has for it.
fn renumber_slice(consumers: &mut [CountedConsumer], places: &[usize])
    ensures { consumers.new ≡ map (counted_moved places.now) consumers.old }
{
    for counted in consumers.iter_mut() {
        counted.consumer.queue = place_now(places, counted.consumer.queue);
    }
}
