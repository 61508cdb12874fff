//! An open channel: its confirm numbers, its delivery tags, its unacknowledged deliveries, and its consumers with their limits.

ghost use Rattle.std.specs.Prelude.{◌≡◌, ℕ, ◌+◌, ◌*◌, ◌<◌, ◌≤◌, List, length, None, Some, true, false, IfSome, IfNone, OnOk, OnErr, option_map, nat_lt};
ghost use Rattle.model.specs.Words.{Text as Word};
ghost use Rattle.model.specs.Consuming.{is_in_use, without_consumer};
ghost use Rattle.model.specs.Step.{started, next_of, is_spent};
ghost use Rattle.model.specs.Prefetch.{has_tag_left};
ghost use Rattle.model.specs.Settling.{settled};
ghost use Rattle.model.specs.Placed.{waiting};
ghost use Rattle.channels.specs.Spans.{settled_by, ReturnsSpan};
ghost use Rattle.channels.specs.Deliveries.{nothing_given, may_be_given, consumer_at};
ghost use Rattle.channels.specs.Deliveries.{AddsConsumer, ConsumesUnnamed, JudgesNamed, CanMakeConsumer, NamesUnnamed};
ghost use Rattle.channels.specs.Open.{with_qos, given_on, settled_on, without_settled, without_named, consumers_from, open_in};
ghost use Rattle.channels.specs.Open.{JudgesConsumer, MakesConsumer, IsOne, ReturnsTaker};
ghost use Rattle.channels.specs.Consumers.{AreBelow};
ghost use Rattle.channels.specs.Moving.{open_moved};
ghost use Rattle.channels.specs.Outstanding.{tag_of};
ghost use Rattle.channels.specs.Seats.{IsSeatAt, IsTagged};
ghost use Rattle.channels.specs.CountedConsumers.{NumbersRise};
ghost use Rattle.channels.specs.Waking.{AreWoken};

use crate::consumers::{ConsumeError, Consumer, ConsumerRefusal, Seat, held_by, number_of};
use crate::counted_consumers::CountedConsumers;
use crate::names::{Name, next_name};
use crate::pending::Unsettled;
use crate::settled::Settled;
use crate::spans::Span;
use crate::tags::{count_waiting, settled_of, span_of};
use crate::waking::Wakes;
use laws::next_tags_are_found;
use model::{Consume, Delivery, Qos, Taker, Text};
use std::alloc::{AllocError, Global};
use std::marker::Model;

/// An open channel. Source: AMQP 0-9-1, section 1.5, "channel"; RabbitMQ, "Publisher Confirms".
#[derive(Drop)]
pub struct Channel {
    /// The last confirm number, if the channel is in confirm mode.
    confirm: Option<u64>,
    /// Whether a close was sent, and close-ok is awaited.
    is_closing: bool,
    pending: Unsettled,
    consumers: CountedConsumers,
    next_tag: u64,
    next_number: u64,
    /// The greatest number among the consumers that were given a message; 0 before the first.
    most_given: u64,
    next_name: u64,
    each_limit: u16,
    limit: u16,
}

impl Model for Channel {
    ghost use Rattle.channels.specs.CountedConsumers.{TagsAndCountsAgree};
    ghost use Rattle.channels.specs.Open.{Open};

    ghost Value = { Open };

    ghost view = { λ c. record {
      confirm = c.confirm;
      is_closing = c.is_closing;
      given = record {
        next_tag = c.next_tag;
        next_number = c.next_number;
        next_name = c.next_name;
        each_limit = c.each_limit;
        limit = c.limit;
        consumers = c.consumers.consumers;
        outstanding = c.pending.outstanding;
        room = c.pending.room;
        consumer_room = c.consumers.room;
      };
    } };

    ghost invariant = { λ c. TagsAndCountsAgree c.pending.last c.next_tag c.consumers c.pending.outstanding c.next_number c.most_given };
}

impl Channel {
    /// Makes a channel that is not in confirm mode, without deliveries and consumers. Never allocates.
    pub fn new(alloc: Global) -> Channel
        ensures { result ≡ record { confirm = None; is_closing = false; given = nothing_given 0 0 } }
    {
        Channel::with_nothing(alloc, false)
    }

    /// Makes a channel on which a close was sent, and which ignores all but a close and close-ok. Never
    /// allocates.
    pub fn closing(alloc: Global) -> Channel
        ensures { result ≡ record { confirm = None; is_closing = true; given = nothing_given 0 0 } }
    {
        Channel::with_nothing(alloc, true)
    }

    /// Makes a channel without deliveries and consumers. Never allocates.
    fn with_nothing(alloc: Global, is_closing: bool) -> Channel
        ensures { result ≡ record { confirm = None; is_closing = is_closing; given = nothing_given 0 0 } }
    {
        Channel {
            confirm: None,
            is_closing,
            pending: Unsettled::new(alloc),
            consumers: CountedConsumers::new(alloc),
            next_tag: 1,
            next_number: 1,
            most_given: 0,
            next_name: 1,
            each_limit: 0,
            limit: 0,
        }
    }

    /// Returns whether a close was sent and close-ok is awaited.
    pub fn is_closing(&self) -> bool
        ensures { result ≡ self.now.is_closing }
    {
        self.is_closing
    }

    /// Returns the last confirm number, 0 before the first confirm, or `None` if the channel is not in confirm mode.
    pub fn confirm(&self) -> Option<u64>
        ensures { result ≡ self.now.confirm }
    {
        self.confirm
    }

    /// Puts the channel into confirm mode, with numbers from 1. Does nothing if it is in confirm mode already.
    pub fn select(&mut self)
        ensures { self.new ≡ record self.old { confirm = started self.old.confirm } }
    {
        if self.confirm.is_none() {
            self.confirm = Some(0);
        }
    }

    /// Returns the confirm number of the next publish, if the channel is in confirm mode.
    pub fn next_confirm(&self) -> Option<u64>
        requires { is_spent self.now.confirm ≡ false }
        ensures { result ≡ next_of self.now.confirm }
    {
        match self.confirm {
            Some(number) => Some(number + 1),
            None => None,
        }
    }

    /// Counts a publish: it takes the next confirm number, if the channel is in confirm mode.
    pub fn count_publish(&mut self)
        requires { is_spent self.old.confirm ≡ false }
        ensures { self.new ≡ record self.old { confirm = next_of self.old.confirm } }
    {
        self.confirm = self.next_confirm();
    }

    /// Sets the prefetch that `qos` asks for: of all the channel's consumers together if it is global, otherwise of each consumer that is made
    /// later. Source: AMQP 0-9-1, basic.qos; RabbitMQ, "Consumer Prefetch".
    pub fn limit(&mut self, qos: &Qos)
        ensures { self.new ≡ with_qos self.old qos.now }
    {
        if qos.global {
            self.limit = qos.prefetch_count;
        } else {
            self.each_limit = qos.prefetch_count;
        }
    }

    /// Returns the first reason against the consumer that `consume` asks for: its tag is in use on the channel (530), the channel has 256 consumers
    /// (506), or the numbers or the server's tags are used up (541). Never allocates.
    /// Source: AMQP 0-9-1, basic.consume.
    pub fn refusal(&self, consume: &Consume) -> Option<ConsumerRefusal>
        ensures { JudgesConsumer self.now consume.now result }
    {
        if consume.consumer_tag.len() == 0 {
            next_tags_are_found();
            return self.next_unnamed().err();
        }
        self.refusal_named(consume.consumer_tag.as_bytes())
    }

    /// Returns the first reason against a consumer with this tag. Never allocates.
    fn refusal_named(&self, tag: &[u8]) -> Option<ConsumerRefusal>
        ensures { JudgesNamed self.now.given tag.now result }
    {
        if self.consumers.has(tag) {
            return Some(ConsumerRefusal::InUse);
        }
        if self.consumers.len() >= 256 {
            return Some(ConsumerRefusal::TooMany);
        }
        if self.next_number == u64::MAX {
            return Some(ConsumerRefusal::Spent);
        }
        None
    }

    /// Returns the next tag for a consumer without one of its own: `amq.ctag-N`, with N counted from 1 on the channel, past those in use. Refused
    /// if the channel has 256 consumers (506), or if the numbers or the tags are used up (541), in this order.
    /// Never allocates.
    fn next_unnamed(&self) -> Result<Name, ConsumerRefusal>
        ensures { NamesUnnamed self.now.given result }
    {
        if self.consumers.len() >= 256 {
            return Err(ConsumerRefusal::TooMany);
        }
        if self.next_number == u64::MAX {
            return Err(ConsumerRefusal::Spent);
        }
        match next_name(&self.consumers, self.next_name) {
            Some(name) => Ok(name),
            None => Err(ConsumerRefusal::Spent),
        }
    }

    /// Makes a consumer of the queue at index `queue`, and returns its tag: the one that `consume` gives, or else one of the server's. Refused as
    /// [`Channel::refusal`] says, in the same order: its tag is in use on the channel (530), the channel has 256 consumers (506), or the
    /// numbers or the server's tags are used up (541). Fails with [`ConsumeError::Memory`] only if there is no such reason and an allocation fails. If it
    /// fails nothing has changed. Source: AMQP 0-9-1, basic.consume.
    pub fn consume(
        &mut self,
        alloc: Global,
        queue: usize,
        consume: &Consume,
    ) -> Result<Text, ConsumeError>
        ensures { MakesConsumer self.old queue consume.now result self.new }
    {
        if consume.consumer_tag.len() == 0 {
            next_tags_are_found();
            return self.consume_unnamed(alloc, queue, consume.no_ack);
        }
        if let Some(refusal) = self.refusal_named(consume.consumer_tag.as_bytes()) {
            return Err(ConsumeError::Refused(refusal));
        }
        let tag = consume.consumer_tag.clone()?;
        self.add_consumer(consume.consumer_tag.clone()?, queue, consume.no_ack)?;
        Ok(tag)
    }

    /// Makes a consumer with this tag, which is not refused. Fails only if there is no spare capacity and the allocation fails; nothing has
    /// changed then.
    fn add_consumer(&mut self, tag: Text, queue: usize, no_ack: bool) -> Result<(), AllocError>
        requires { CanMakeConsumer self.old.given tag }
        ensures same { self.new ≡ record self.old { given = self.new.given } }
        ensures ok { OnOk result (AddsConsumer self.old.given tag queue no_ack self.new.given) }
        ensures full { OnErr result (self.old.given.consumer_room ≡ 0) }
        ensures err { OnErr result (self.new ≡ self.old) }
    {
        let number = self.next_number;
        if self.consumers.reserve().is_err() {
            return Err(AllocError);
        }
        let consumer = Consumer {
            number,
            tag,
            queue,
            no_ack,
            limit: self.each_limit,
        };
        let held = held_by(self.pending.all(), self.most_given, number);
        self.consumers.push(consumer, held);
        self.next_number = number + 1;
        Ok(())
    }

    /// Makes a consumer with the server's next tag, which is returned. Fails if the consumer is refused or an allocation fails; nothing has
    /// changed then.
    fn consume_unnamed(
        &mut self,
        alloc: Global,
        queue: usize,
        no_ack: bool,
    ) -> Result<Text, ConsumeError>
        ensures same { self.new ≡ record self.old { given = self.new.given } }
        ensures consumes { ConsumesUnnamed self.old.given queue no_ack result self.new.given }
    {
        let name = self.next_unnamed()?;
        let tag = Text::from_slice(alloc, name.tag.as_bytes())?;
        self.add_consumer(tag.clone()?, queue, no_ack)?;
        self.next_name = name.number + 1;
        Ok(tag)
    }

    /// Removes the consumer with this tag, if any. Its unacknowledged messages stay unacknowledged. Never allocates. Source:
    /// AMQP 0-9-1, basic.cancel.
    pub fn cancel(&mut self, tag: &[u8])
        ensures whole { self.new ≡ without_named self.old tag.now self.new.given.consumer_room }
        ensures seen { (names : List Word) → open_in names self.new ≡ without_consumer (open_in names self.old) tag.now }
    {
        self.consumers.remove_by_tag(tag);
    }

    /// Returns the seat of the channel's consumer with this tag; `None` if no consumer has the tag.
    pub fn tagged(&self, tag: &[u8]) -> Option<Seat>
        ensures some { IfSome result (λ s. IsTagged self.now tag.now s) }
        ensures none { IfNone result ((names : List Word) → is_in_use tag.now (open_in names self.now).consumers ≡ false) }
    {
        self.consumers.tagged(tag)
    }

    /// Remembers `place` as the guess of the index of the consumer with this number among those of its queue. Does nothing if the channel has
    /// no such consumer.
    pub fn seat(&mut self, number: u64, place: usize)
        ensures { self.new ≡ self.old }
    {
        self.consumers.seat(number, place);
    }

    /// Returns the number of the channel's consumers.
    pub fn consumer_count(&self) -> usize
        ensures { result ≡ length self.now.given.consumers }
    {
        self.consumers.len()
    }

    /// Returns the seat of the consumer at this index among the channel's, in the order in which they were made.
    pub fn seat_at(&self, index: usize) -> Seat
        requires { index < length self.now.given.consumers }
        ensures { IsSeatAt self.now.given.consumers index result }
    {
        self.consumers.seat_at(index)
    }

    /// Wakes each consumer that can take a message now, by `waker`. This is channel `channel` of `connection`. Never allocates.
    pub fn wake<W: Wakes>(&mut self, connection: u64, channel: u16, waker: &mut W)
        ensures same { self.new ≡ self.old }
        ensures awake { AreWoken (λ q. W.is_awake waker.new q connection channel) self.old }
        ensures stay { (q c h n : ℕ) → W.is_awake waker.old q c h n → W.is_awake waker.new q c h n }
        ensures on { (start : W) → W.goes_on start waker.old → W.goes_on start waker.new }
    {
        self.consumers.wake(connection, channel, self.limit, waker);
    }

    /// Shows that the numbers of the channel's consumers ascend. Does nothing at run time.
    pub fn ghost_numbers_rise(&self)
        ensures { NumbersRise self.now.given.consumers }
    {
        let _ = &self.next_number;
    }

    /// Returns the number of the next consumer. No consumer had it yet, and each has a smaller one.
    pub fn next_number(&self) -> u64
        ensures next { result ≡ self.now.given.next_number }
        ensures above { AreBelow (Some self.now) result }
    {
        self.next_number
    }

    /// Returns the consumer with this number if it is the channel's and can take a message now: a delivery tag is left, and neither its prefetch nor
    /// the channel's is used up. Source: RabbitMQ, "Consumer Prefetch".
    pub fn taker(&self, number: u64) -> Option<&Consumer>
        ensures { ReturnsTaker self.now number (option_map (λ k. k.now) result) }
    {
        let found = self.consumers.taker(number, self.limit);
        if !self.has_tag_left() {
            return None;
        }
        found
    }

    /// Returns whether the consumer with this number is the channel's and can take a message now: a delivery tag is left, and neither its prefetch
    /// nor the channel's is used up. Source: RabbitMQ, "Consumer Prefetch".
    pub fn may_take(&self, number: u64) -> bool
        ensures { result ≡ may_be_given self.now.given number }
    {
        self.has_tag_left() && self.consumers.may_take(number, self.limit)
    }

    /// Returns the consumer with this number, if the channel has it.
    pub fn consumer(&self, number: u64) -> Option<&Consumer>
        ensures found { option_map (λ k. k.now) result ≡ consumer_at self.now.given number }
        ensures one { IfSome result (λ k. IsOne self.now number k.now) }
    {
        self.consumers.numbered(number)
    }

    /// Returns whether the channel has a consumer.
    pub fn has_consumers(&self) -> bool
        ensures { result ≡ nat_lt 0 (length self.now.given.consumers) }
    {
        self.consumers.len() > 0
    }

    /// Returns whether one of the channel's consumers has this tag.
    pub fn has_tagged(&self, tag: &[u8]) -> bool
        ensures { (names : List Word) → result ≡ is_in_use tag.now (open_in names self.now).consumers }
    {
        self.consumers.has(tag)
    }

    /// Returns how many of the channel's consumers take from the queue at index `queue`.
    pub fn consumers_from(&self, queue: usize) -> usize
        ensures { result ≡ consumers_from queue self.now }
    {
        self.consumers.count_from(queue)
    }

    /// Returns whether the channel can still number a delivery: tags are below 2^64 - 1.
    pub fn has_tag_left(&self) -> bool
        ensures { result ≡ has_tag_left self.now.given.next_tag }
    {
        self.next_tag < u64::MAX
    }

    /// Returns the delivery tag of the next message that is given out.
    pub fn next_tag(&self) -> u64
        ensures { result ≡ self.now.given.next_tag }
    {
        self.next_tag
    }

    /// Reserves capacity for `more` deliveries. What is allocated is bounded by the number of unacknowledged ones. Fails only if there is less
    /// capacity and the allocation fails; nothing has changed then.
    pub fn reserve(&mut self, more: usize) -> Result<(), AllocError>
        ensures same { self.new ≡ record self.old { given = record self.old.given { room = self.new.given.room } } }
        // The capacity after the call, also if the call fails.
        ensures kept { self.old.given.room ≤ self.new.given.room }
        ensures full { OnErr result (self.old.given.room < more) }
        ensures grown { self.old.given.room < self.new.given.room → self.new.given.room ≤ 3 * length self.old.given.outstanding + more + 68 }
        ensures room { OnOk result (more ≤ self.new.given.room) }
        ensures err { OnErr result (self.new ≡ self.old) }
    {
        self.pending.reserve(more)
    }

    /// Records that a message of the queue at index `queue` is given out under the next tag, and is unacknowledged.
    pub fn give(&mut self, queue: usize, arrival: u64, by: Taker)
        requires left { has_tag_left self.old.given.next_tag ≡ true }
        requires room { 0 < self.old.given.room }
        ensures { self.new ≡ given_on self.old queue arrival by }
    {
        let tag = self.next_tag;
        self.pending.push(Delivery {
            tag,
            queue,
            arrival,
            by,
        });
        self.consumers.count_in(&by);
        self.most_given = self.most_given.max(number_of(&by));
        self.next_tag = tag + 1;
    }

    /// Records that a message is given out under the next tag, and needs no acknowledgement.
    pub fn give_settled(&mut self)
        requires { has_tag_left self.old.given.next_tag ≡ true }
        ensures { self.new ≡ settled_on self.old }
    {
        self.next_tag += 1;
    }

    /// Returns the unacknowledged deliveries in tag order. Settled entries may be among them: at most as many as are unacknowledged, plus 32.
    pub fn outstanding(&self) -> &[Delivery]
        ensures all { waiting result.now ≡ self.now.given.outstanding }
        ensures few { length result.now ≤ 2 * length self.now.given.outstanding + 32 }
    {
        self.pending.all()
    }

    /// Returns the span of what `tag` settles, or `None` if the tag is refused, with 406. The calls that take the span search for the tag only if
    /// the channel has changed. Source: AMQP 0-9-1, basic.ack.
    pub fn span(&self, tag: u64, multiple: bool) -> Option<Span>
        ensures { ReturnsSpan tag multiple self.now.given.outstanding result }
    {
        span_of(self.pending.all(), tag, multiple)
    }

    /// Returns the deliveries that `span` settles, in tag order; entries of deliveries that were settled before may be among them. Empty if the
    /// tag is refused.
    pub fn at(&self, span: Span) -> &[Delivery]
        ensures { waiting result.now ≡ settled_by span self.now.given.outstanding }
    {
        settled_of(self.pending.all(), span)
    }

    /// Removes the deliveries that `span` settles; none if its tag is refused. Never allocates.
    pub fn forget_span(&mut self, span: Span)
        ensures settled { self.new ≡ without_settled self.old span.tag span.multiple self.new.given.room }
        ensures room { self.old.given.room ≤ self.new.given.room }
    {
        let gone = settled_of(self.pending.all(), span);
        let count = count_waiting(gone);
        self.consumers.count_out(gone);
        self.pending.forget(span, count);
    }

    /// Returns the deliveries that `tag` settles, in tag order: the one with this tag; or with `multiple` all up to `tag`, and all of the channel for tag 0.
    /// Returns `None`, which is 406, if no unacknowledged delivery has this tag, unless it is 0 with `multiple`. Never allocates. Source: AMQP 0-9-1,
    /// basic.ack.
    pub fn settle(&self, tag: u64, multiple: bool) -> Option<Settled<'_>>
        ensures { result ≡ settled tag_of tag multiple self.now.given.outstanding }
    {
        let span = self.span(tag, multiple)?;
        Some(Settled::among(self.at(span)))
    }

    /// Removes the deliveries that `tag` settles, as [`Channel::settle`] returns them, and none if the tag is refused. Never
    /// allocates. Source: AMQP 0-9-1, basic.ack.
    pub fn forget(&mut self, tag: u64, multiple: bool)
        ensures settled { self.new ≡ without_settled self.old tag multiple self.new.given.room }
        ensures room { self.old.given.room ≤ self.new.given.room }
    {
        self.forget_span(Span {
            tag,
            multiple,
            place: 0,
        });
    }

    /// Sets each queue's index to the one that `indices` has for it. Never allocates.
    pub fn renumber(&mut self, indices: &[usize])
        ensures { self.new ≡ open_moved indices.now self.old }
    {
        self.pending.renumber(indices);
        self.consumers.renumber(indices);
    }
}
