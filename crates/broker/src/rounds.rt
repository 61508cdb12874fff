//! The lines of consumers, over which deliveries go.
//!
//! Each queue has a line of its consumers, in the order of their turns. A pick goes round-robin over the queues that have a ready message and a
//! consumer awake, starting behind the queue picked last, and at each queue over its line. So a consumer of a queue without a ready message costs
//! nothing, nor does a queue whose consumers can't take a message. A consumer that a pick finds unable falls asleep, and costs nothing until an event
//! of its own channel, or the end of its connection's pause, lets it take more: then it is woken. A consumer leaves its line when it ends: the event
//! that ends it hands over what its channel or connection was. If several leave, the lines of their queues are swept, each once.

mod finding;
mod leaving;
mod queue_lines;

ghost use Rattle.std.specs.Prelude.{◌≡◌};
ghost use Rattle.broker.specs.Rounds.{wakes_on};

use crate::rounds::finding::{Same, is_of};
use crate::rounds::leaving::{Gone, PlaceMarks, find_gone, who_leaves};
use crate::rounds::queue_lines::{empty_lines, empty_marks, first_from, move_lines, sweep_named};
use channels::{Seat, Wakes};
use commands::{Core, Counts, Ends, Pick};
use marks::IndexSet;
use model::{ChannelId, Event, Method};
use std::alloc::{AllocError, Global};
use std::marker::Model;
use waiting_lines::Line;

/// A consumer that is about to be made, and the index of its queue.
#[derive(Clone, Copy, PartialEq, Eq, Debug, Drop)]
pub(crate) struct Newcomer {
    pub queue: usize,
    pub consumer: Pick,
}

/// Returns whether a command may let a consumer of its channel take more messages: it settles deliveries, sets a prefetch, or makes a consumer.
fn wakes_on(method: &Method) -> bool
    ensures { result ≡ wakes_on method.now }
{
    matches!(
        method,
        Method::BasicQos(_)
            | Method::BasicConsume(_)
            | Method::BasicAck(_)
            | Method::BasicReject(_)
            | Method::BasicNack(_)
            | Method::BasicRecover { .. }
    )
}

/// The lines of all queues, in the order of the definitions.
pub(crate) struct ConsumerRounds {
    lines: Vec<Line<Pick>>,
    /// A bit for each queue, 1 if a consumer in its line is awake.
    awake: PlaceMarks,
    /// A bit for each queue, 1 if its line is to be swept. Between calls all are 0, but nothing rests on that.
    named: PlaceMarks,
    /// The index behind the queue picked last.
    next: usize,
}

/// Not derived: a derived drop is expanded, and proved again, in each function that drops the value.
impl Drop for ConsumerRounds {
    fn drop(self) {
        let ConsumerRounds {
            lines: _,
            awake: _,
            named: _,
            next: _,
        } = self;
    }
}

impl Model for ConsumerRounds {
    ghost use Rattle.std.specs.Prelude.{◌≤◌, ◌*◌, length};
    ghost use Rattle.broker.specs.Rounds.{Rounds, QueuesAreMarked};

    ghost Value = { Rounds };

    ghost view = { λ r. record { lines = r.lines.items; next = r.next } };

    ghost invariant = { λ r. QueuesAreMarked r.lines.items r.awake × (length r.lines.items ≤ length r.named * 64) };
}

impl Counts for ConsumerRounds {
    ghost use Rattle.std.specs.Prelude.{◌≡◌, ◌≤◌, length};
    ghost use Rattle.model.specs.Step.{greatest};
    ghost use Rattle.broker.specs.Rounds.{line_of, order};

    ghost is_count = { λ r queue count. (count ≡ length (order (line_of r.lines queue))) × (count ≤ greatest) };

    fn count(&self, queue: usize) -> usize {
        match self.lines.get(queue) {
            Some(line) => line.len(),
            None => 0,
        }
    }
}

impl Wakes for ConsumerRounds {
    ghost use Rattle.broker.specs.Leaving.{consumer_at};
    ghost use Rattle.broker.specs.Rounds.{GoesOn, IsNotAsleepAt, NobodyFallsAsleep};

    ghost is_awake = { λ r queue c h n. IsNotAsleepAt r.lines queue (consumer_at c h n) };

    ghost goes_on = { λ old new. GoesOn old new × NobodyFallsAsleep old.lines new.lines };

    fn wake(&mut self, connection: u64, channel: u16, seat: Seat) -> usize {
        let pick = Pick {
            connection,
            channel,
            number: seat.number,
        };
        if seat.queue < self.lines.len() {
            self.awake.set(seat.queue);
            return self.lines[seat.queue].wake(&Same { pick }, seat.place);
        }
        seat.place
    }
}

impl ConsumerRounds {
    ghost use Rattle.std.specs.Prelude.{◌≡◌, ℕ, true, false, None, Some, IfSome, IfOk, IsOk, length};
    ghost use Rattle.model.specs.Topology.{IsIn};
    ghost use Rattle.channels.specs.Counting.{AllDistinct};
    ghost use Rattle.commands.specs.declared.picks.Pick.{Pick as Consumer};
    ghost use Rattle.commands.specs.State.{topology_kept};
    ghost use Rattle.commands.specs.Picked.{IsPickFrom};
    ghost use Rattle.commands.specs.NewConsumers.{consumer_to_make};
    ghost use Rattle.broker.specs.Leaving.{leavers_of};
    ghost use Rattle.broker.specs.Named.{AreAwakeAfter, AreNamed};
    ghost use Rattle.broker.specs.Moving.{IndicesDiffer, LinesAreMoved, LinesCome};
    ghost use Rattle.broker.specs.Rounds.{is_of, line_of, order, AllAddTheirOwn, AllAreConsumers, AllAreEmpty, AreKept, CanJoin, GoesOn, IsExpected};
    ghost use Rattle.broker.specs.Rounds.{LeaveLines, NobodyFallsAsleep, PicksFirst, SameLines};

    /// Makes empty lines for `queues` queues. Fails only if an allocation fails.
    pub fn new(alloc: Global, queues: usize) -> Result<ConsumerRounds, AllocError>
        ensures lines { IfOk result (λ r. length r.lines ≡ queues) }
        ensures empty { IfOk result (λ r. AllAreEmpty r.lines) }
        ensures next { IfOk result (λ r. r.next ≡ 0) }
    {
        Ok(ConsumerRounds {
            lines: empty_lines(alloc, queues)?,
            awake: empty_marks(alloc, queues)?,
            named: empty_marks(alloc, queues)?,
            next: 0,
        })
    }

    /// Reserves capacity in the line of its queue for the consumer that `event` is going to make, if any, and returns that consumer. Fails only if an
    /// allocation fails. Either way each line is unchanged.
    pub fn expect_next(
        &mut self,
        core: &Core,
        event: &Event,
    ) -> Result<Option<Newcomer>, AllocError>
        requires lines { length self.old.lines ≡ length (topology_kept core.now).queues }
        requires own { AllAreConsumers core.now self.old.lines }
        // The newcomer, and capacity for it.
        ensures expected { IfOk result (IsExpected core.now event.now self.new.lines) }
        // The frame: each line is unchanged.
        ensures same { SameLines self.old.lines self.new.lines }
        ensures len { length self.new.lines ≡ length self.old.lines }
        ensures next { self.new.next ≡ self.old.next }
        // An event that makes no consumer never fails, so neither does a consume that is refused.
        ensures quiet { consumer_to_make core.now event.now ≡ None → IsOk result }
    {
        let Some(consumer) = core.consumer_to_make(event) else {
            return Ok(None);
        };
        let Some(queue) = core.queue_consumed(event) else {
            return Ok(None);
        };
        self.lines[queue].reserve()?;
        Ok(Some(Newcomer { queue, consumer }))
    }

    /// Adds `newcomer`, if there is one and it is a consumer now, awake, at the end of its queue's line. Never allocates.
    pub fn join(&mut self, core: &mut Core, newcomer: Option<Newcomer>)
        requires { IfSome newcomer (CanJoin self.old.lines) }
        ensures core { core.new ≡ core.old }
        // The newcomer is added if it is a consumer.
        ensures joined { IfSome newcomer (λ n. is_of core.old n.queue n.consumer ≡ true → IsIn n.consumer (order (line_of self.new.lines n.queue))) }
        // The frame: nothing else is added, and nobody falls asleep.
        ensures adds { AllAddTheirOwn core.old self.old.lines self.new.lines }
        ensures asleep { NobodyFallsAsleep self.old.lines self.new.lines }
        ensures len { length self.new.lines ≡ length self.old.lines }
        ensures next { self.new.next ≡ self.old.next }
    {
        let Some(Newcomer { queue, consumer }) = newcomer else {
            return;
        };
        if is_of(core, queue, consumer) {
            self.awake.set(queue);
            let place = self.lines[queue].join(consumer);
            core.seat(consumer, place);
        }
    }

    /// Removes the consumers from their lines that an event of the channel `id` ends. The order of the others is unchanged. Looks at no other lines.
    /// Never allocates.
    pub fn leave(&mut self, id: ChannelId, ends: &Ends)
        // What the caller knows: each of them that is in a line is named, with its queue, and nobody is in a line twice.
        requires named { AreNamed id.connection id.number ends.now self.old.lines }
        requires once { (place : ℕ) → AllDistinct (order (line_of self.old.lines place)) }
        ensures left { LeaveLines (leavers_of id.connection id.number ends.now) self.old.lines self.new.lines }
        // The frame.
        ensures asleep { NobodyFallsAsleep self.old.lines self.new.lines }
        ensures len { length self.new.lines ≡ length self.old.lines }
        ensures next { self.new.next ≡ self.old.next }
    {
        let count = self.lines.len();
        match find_gone(id, ends, count, &mut self.named) {
            Gone::Nobody => {}
            Gone::One(pick, seat) => {
                if seat.queue < count {
                    self.lines[seat.queue].leave(&Same { pick }, seat.place);
                }
            }
            Gone::Several => {
                let who = who_leaves(id, ends);
                sweep_named(&mut self.lines, &mut self.awake, &mut self.named, who);
            }
        }
    }

    /// Wakes those consumers that can take more messages after `event` and can take one now. Never allocates.
    pub fn wake_for(&mut self, core: &mut Core, event: &Event)
        ensures core { core.new ≡ core.old }
        // Each consumer that may be able to take more is awake, or can't take a message now.
        ensures awake { AreAwakeAfter event.now core.old self.new.lines }
        // The frame: nobody falls asleep, and every order is unchanged.
        ensures on { GoesOn self.old self.new }
        ensures asleep { NobodyFallsAsleep self.old.lines self.new.lines }
    {
        match event {
            Event::Command {
                connection,
                channel,
                method,
                ..
            } => {
                if wakes_on(method) {
                    core.wake(*connection, Some(*channel), self);
                }
            }
            Event::Resume { connection } => core.wake(*connection, None, self),
            _ => {}
        }
    }

    /// Moves the lines of `old` to the indices that `indices` has for their queues. The line of a queue whose new index is past the end is dropped. Never
    /// allocates.
    pub fn take_over(&mut self, old: ConsumerRounds, indices: &[usize])
        requires len { length indices.now ≡ length old.lines }
        requires distinct { IndicesDiffer indices.now (length self.old.lines) }
        // The lines are moved, and nothing else is in them.
        ensures moved { LinesAreMoved indices.now old.lines self.new.lines }
        ensures came { LinesCome indices.now old.lines self.old.lines self.new.lines }
        // The frame.
        ensures next { self.new.next ≡ self.old.next }
        ensures len { length self.new.lines ≡ length self.old.lines }
    {
        let ConsumerRounds {
            mut lines,
            awake: _,
            named: _,
            next: _,
        } = old;
        move_lines(&mut self.lines, &mut self.awake, &mut lines, indices);
    }

    /// Picks the next delivery, round-robin over the queues, starting behind the queue picked last. Never
    /// allocates.
    pub fn pick(&mut self, core: &Core) -> Option<Pick>
        requires { AreKept core.now self.old.lines }
        ensures kept { AreKept core.now self.new.lines }
        // A delivery can be made to the picked consumer; if no consumer is picked, no delivery can be made at all.
        ensures some { IfSome result (λ p. (place : ℕ) × IsPickFrom core.now place p) }
        ensures none { result ≡ None → (place : ℕ) (p : Consumer) → IsPickFrom core.now place p → ⊥ }
        // The picked consumer is the first in order; if none is picked, every order is unchanged.
        ensures picked { IfSome result (λ p. PicksFirst core.now self.old self.new p) }
        ensures on { result ≡ None → GoesOn self.old self.new }
    {
        let found = first_from(&mut self.lines, &mut self.awake, core, self.next)?;
        self.next = found.queue + 1;
        Some(found.pick)
    }
}
