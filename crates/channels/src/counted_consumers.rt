//! The consumers of a channel, with counts of their unacknowledged messages.

ghost use Rattle.std.specs.Prelude.{◌≡◌};

use crate::consumers::{
    Consumer, CountedConsumer, Seat, consumer_of, count_from, count_in, count_out, given_to_all,
    is_in_use, may_one, one_if_consumed, remove_tagged, renumber, taker_of,
};
use crate::seats::{remember, seat_at, seat_tagged};
use crate::waking::{Wakes, wake_all};
use model::{Delivery, Taker};
use std::alloc::{AllocError, Global};
use std::marker::Model;

/// The consumers, in the order in which they were made, each with the number of its unacknowledged messages. `given` is the number of
/// unacknowledged messages of all consumers together, including cancelled ones.
#[derive(Drop)]
pub(crate) struct CountedConsumers {
    consumers: Vec<CountedConsumer>,
    given: usize,
}

impl Model for CountedConsumers {
    ghost use Rattle.std.specs.Prelude.{◌-◌, vec_len, vec_capacity};
    ghost use Rattle.channels.specs.CountedConsumers.{ConsumerCounts, consumers_of, counts_of};

    ghost Value = { ConsumerCounts };

    ghost view = { λ s. record {
      consumers = consumers_of s.consumers.items;
      held = counts_of s.consumers.items;
      given = s.given;
      room = vec_capacity s.consumers - vec_len s.consumers;
    } };
}

impl CountedConsumers {
    ghost use Rattle.std.specs.Prelude.{◌≡◌, ◌+◌, ◌-◌, ◌<◌, ◌≤◌, ◌^◌, ◌++◌, ◌∷◌, [], ℕ, List, length, filter, count_by, map};
    ghost use Rattle.std.specs.Prelude.{not, find, option_map, OnOk, OnErr};
    ghost use Rattle.std.specs.List.{list_any, All};
    ghost use Rattle.model.specs.Prefetch.{count_to};
    ghost use Rattle.channels.specs.Outstanding.{taker_of};
    ghost use Rattle.model.specs.Placed.{waiting};
    ghost use Rattle.channels.specs.CountedConsumers.{CountsAgree, AreParts, NumbersRise, consumer_numbered, consumers_of, is_named, takes_from};
    ghost use Rattle.channels.specs.Deliveries.{may_of, FindsTaker, WakesAble};
    ghost use Rattle.channels.specs.Moving.{consumer_moved, outstanding_moved};
    ghost use Rattle.channels.specs.Seats.{IsSeatAt, ReturnsSeat};
    ghost use Rattle.model.specs.declared.deliveries.Delivery.{Delivery as Given};

    /// Makes an empty list. Never allocates.
    pub(crate) fn new(alloc: Global) -> CountedConsumers
        ensures consumers { result.consumers ≡ [] }
        ensures room { result.room ≡ 0 }
        ensures counted { CountsAgree result [] }
    {
        CountedConsumers {
            consumers: Vec::new(alloc),
            given: 0,
        }
    }

    /// Returns all consumers with their counts.
    pub(crate) fn all(&self) -> &[CountedConsumer]
        ensures { consumers_of result.now ≡ self.now.consumers }
    {
        &self.consumers
    }

    /// Returns the number of consumers.
    pub(crate) fn len(&self) -> usize
        ensures { result ≡ length self.now.consumers }
    {
        self.consumers.len()
    }

    /// Returns whether some consumer has this tag.
    pub(crate) fn has(&self, tag: &[u8]) -> bool
        ensures { result ≡ list_any (is_named tag.now) self.now.consumers }
    {
        is_in_use(&self.consumers, tag)
    }

    /// Returns how many consumers take from the queue at index `queue`.
    pub(crate) fn count_from(&self, queue: usize) -> usize
        ensures { result ≡ count_by (takes_from queue) self.now.consumers }
    {
        count_from(&self.consumers, queue)
    }

    /// Returns the consumer with this number.
    pub(crate) fn numbered(&self, number: u64) -> Option<&Consumer>
        requires { NumbersRise self.now.consumers }
        ensures { option_map (λ k. k.now) result ≡ consumer_numbered number self.now.consumers }
    {
        consumer_of(&self.consumers, number)
    }

    /// Returns whether consumer `number` exists and neither its own prefetch nor the channel's `limit` is used up.
    pub(crate) fn may_take(&self, number: u64, limit: u16) -> bool
        requires { NumbersRise self.now.consumers }
        ensures { (given : List Given) → CountsAgree self.now given
            → result ≡ may_of limit given (consumer_numbered number self.now.consumers) }
    {
        may_one(&self.consumers, number, limit, self.given)
    }

    /// Returns consumer `number` if it exists and neither its own prefetch nor the channel's `limit` is used up.
    pub(crate) fn taker(&self, number: u64, limit: u16) -> Option<&Consumer>
        requires { NumbersRise self.now.consumers }
        ensures { FindsTaker self.now number limit (option_map (λ k. k.now) result) }
    {
        taker_of(&self.consumers, number, limit, self.given)
    }

    /// Reserves capacity for one more consumer. Fails only if there is none and the allocation fails; nothing has changed then.
    pub(crate) fn reserve(&mut self) -> Result<(), AllocError>
        ensures same { self.new ≡ record self.old { room = self.new.room } }
        ensures kept { self.old.room ≤ self.new.room }
        ensures room { OnOk result (0 < self.new.room) }
        ensures full { OnErr result (self.old.room ≡ 0) }
        ensures err { OnErr result (self.new.room ≡ self.old.room) }
    {
        self.consumers.reserve(1)
    }

    /// Appends `consumer`, which already has `held` unacknowledged messages. There is capacity for it.
    pub(crate) fn push(&mut self, consumer: Consumer, held: usize)
        requires { 0 < self.old.room }
        ensures consumers { self.new.consumers ≡ self.old.consumers ++ consumer ∷ [] }
        ensures room { self.new.room + 1 ≡ self.old.room }
        ensures counted { (given : List Given) → CountsAgree self.old given
            → held ≡ count_to taker_of consumer.number given → CountsAgree self.new given }
    {
        self.consumers.push_reserved(CountedConsumer {
            consumer,
            held,
            place: 0,
        });
    }

    /// Removes the consumers with this tag. Their unacknowledged messages still count among those of all consumers together.
    pub(crate) fn remove_by_tag(&mut self, tag: &[u8])
        ensures consumers { self.new.consumers ≡ filter (λ c. not (is_named tag.now c)) self.old.consumers }
        ensures room { self.old.room ≤ self.new.room }
        ensures counted { (given : List Given) → CountsAgree self.old given → CountsAgree self.new given }
    {
        remove_tagged(&mut self.consumers, tag);
    }

    /// Returns the seat of the first consumer with this tag, if one has it.
    pub(crate) fn tagged(&self, tag: &[u8]) -> Option<Seat>
        ensures { ReturnsSeat (find (is_named tag.now) self.now.consumers) result }
    {
        seat_tagged(&self.consumers, tag)
    }

    /// Returns the seat of the consumer at this index.
    pub(crate) fn seat_at(&self, index: usize) -> Seat
        requires { index < length self.now.consumers }
        ensures { IsSeatAt self.now.consumers index result }
    {
        seat_at(&self.consumers, index)
    }

    /// Remembers `place` for the consumer with this number, if it exists.
    pub(crate) fn seat(&mut self, number: u64, place: usize)
        ensures { self.new ≡ self.old }
    {
        remember(&mut self.consumers, number, place);
    }

    /// Sets each queue's index to the one that `indices` has for it. Never allocates.
    pub(crate) fn renumber(&mut self, indices: &[usize])
        ensures consumers { self.new.consumers ≡ map (consumer_moved indices.now) self.old.consumers }
        ensures room { self.new.room ≡ self.old.room }
        ensures counted { (given : List Given) → CountsAgree self.old given → CountsAgree self.new (map (outstanding_moved indices.now) given) }
    {
        renumber(&mut self.consumers, indices);
    }

    /// Wakes each consumer that may be given one more message; `limit` is the channel's prefetch.
    pub(crate) fn wake<W: Wakes>(
        &mut self,
        connection: u64,
        channel: u16,
        limit: u16,
        waker: &mut W,
    )
        ensures same { self.new ≡ self.old }
        ensures awake { WakesAble limit (λ q. W.is_awake waker.new q connection channel) self.old }
        ensures stay { (q c h n : ℕ) → W.is_awake waker.old q c h n → W.is_awake waker.new q c h n }
        ensures on { (start : W) → W.goes_on start waker.old → W.goes_on start waker.new }
    {
        wake_all(
            &mut self.consumers,
            connection,
            channel,
            limit,
            self.given,
            waker,
        );
    }

    /// Counts a message that is given out to `by`.
    pub(crate) fn count_in(&mut self, by: &Taker)
        // What the caller knows: no count overflows.
        requires each { All (λ n. n < 2 ^ 64 - 1) self.old.held }
        requires all { self.old.given < 2 ^ 64 - 1 }
        requires rise { NumbersRise self.old.consumers }
        // The consumers are unchanged, and the counts are right.
        ensures consumers { self.new.consumers ≡ self.old.consumers }
        ensures room { self.new.room ≡ self.old.room }
        ensures counted { (given : List Given) (o : Given) → o.by ≡ by.now → CountsAgree self.old given → CountsAgree self.new (given ++ o ∷ []) }
    {
        count_in(&mut self.consumers, by);
        self.given += one_if_consumed(by);
    }

    /// Subtracts the unacknowledged deliveries of `gone`, which are settled now, from the counts.
    pub(crate) fn count_out(&mut self, gone: &[Delivery])
        requires { NumbersRise self.old.consumers }
        ensures consumers { self.new.consumers ≡ self.old.consumers }
        ensures room { self.new.room ≡ self.old.room }
        ensures counted { (given left : List Given) → AreParts given (waiting gone.now) left → CountsAgree self.old given → CountsAgree self.new left }
    {
        count_out(&mut self.consumers, gone);
        self.given = self.given.saturating_sub(given_to_all(gone));
    }
}
