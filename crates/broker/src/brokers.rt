//! The broker as its callers see it.

ghost use Rattle.std.specs.Prelude.{◌≡◌};
ghost use Rattle.replies.specs.Sent.{connection_of_event};
ghost use Rattle.commands.specs.Ended.{channel_of_event};

use crate::rounds::ConsumerRounds;
use crate::turns::turn_kept;
use commands::{Core, Ends, Pick};
use exchange_graph::Topology;
use guarantees::Guarantee;
use laws::{brokers_stay_agreed, consumers_are_made};
use model::{ChannelId, Event, Obstacle};
use replies::Step;
use std::alloc::{AllocError, Global};
use std::marker::Model;
use std::mem;

/// Returns the connection that an event belongs to.
fn connection_of(event: &Event) -> u64
    ensures { result ≡ connection_of_event event.now }
{
    match event {
        Event::Open { connection }
        | Event::First { connection, .. }
        | Event::Running { connection, .. }
        | Event::Command { connection, .. }
        | Event::TooLarge { connection, .. }
        | Event::Fault { connection, .. }
        | Event::Lose { connection }
        | Event::Pause { connection }
        | Event::Resume { connection }
        | Event::Deliver { connection } => *connection,
    }
}

/// Returns the channel that an event belongs to; 0 if it is not that of a command or of a publish.
fn channel_of(event: &Event) -> u16
    ensures { result ≡ channel_of_event event.now }
{
    match event {
        Event::Command { channel, .. } | Event::TooLarge { channel, .. } => *channel,
        _ => 0,
    }
}

/// The queues, and the running connections with their channels and consumers.
pub struct Broker {
    core: Core,
    rounds: ConsumerRounds,
    /// The consumer that was picked, until something is delivered.
    turn: Option<Pick>,
}

/// Not derived: a derived drop is expanded, and proved again, in each function that drops the value.
impl Drop for Broker {
    fn drop(self) {
        let Broker {
            core: _,
            rounds: _,
            turn: _,
        } = self;
    }
}

impl Model for Broker {
    ghost use Rattle.broker.specs.Rounds.{IsServing};
    ghost use Rattle.broker.specs.Turns.{WithTurn, with_turn};

    ghost Value = { WithTurn };

    ghost view = { λ b. with_turn b.core b.rounds b.turn };

    ghost invariant = { λ b. IsServing b.core b.rounds };
}

impl Broker {
    ghost use Rattle.std.specs.Prelude.{◌≡◌, ℕ, None, Some, IfSome, IfOk, IsOk, OnOk, OnErr};
    ghost use Rattle.model.specs.Consuming.{CanDeliver};
    ghost use Rattle.model.specs.Reloading.{NoneIsOrphaned, with_all_survived};
    ghost use Rattle.model.specs.Step.{Is};
    ghost use Rattle.model.specs.declared.events.Event.TheVariants as event_is;
    ghost use Rattle.commands.specs.State.{nothing};
    ghost use Rattle.commands.specs.Steps.{ActsAlone, ActsWith, AddressesOwn};
    ghost use Rattle.commands.specs.Obstacles.{ReportsObstacle};
    ghost use Rattle.reloading.specs.Allocating.{JudgingMayAllocate};
    ghost use Rattle.commands.specs.Judged.{IsAsked, WantsNoMemory};
    ghost use Rattle.commands.specs.Picked.{IsPick, DeliversTo};
    ghost use Rattle.commands.specs.declared.picks.Pick.{Pick as Consumer};
    ghost use Rattle.broker.specs.Turns.{broker_of, topology_kept, AddressesTo};
    ghost use Rattle.broker.specs.Waiting.{AllInLine, WaitersAreConsumers, NobodyIsPutBack, NoneIsLater, LinesStay, IsPickedInTurn, LinesMove, ServesSoon};

    /// Makes the broker of `topology`: its queues are empty, and no connection is running. Fails only if an allocation fails.
    pub fn new(alloc: Global, topology: Topology) -> Result<Broker, AllocError>
        ensures topology { IfOk result (λ b. topology_kept b ≡ topology) }
        ensures empty { IfOk result (λ b. Is nothing (broker_of b)) }
    {
        brokers_stay_agreed();
        let rounds = ConsumerRounds::new(alloc, topology.queues().len())?;
        let core = Core::new(alloc, topology)?;
        Ok(Broker {
            core,
            rounds,
            turn: None,
        })
    }

    /// Stops keeping notes, for a caller that reads none. Contracts see no difference.
    pub fn drop_notes(&mut self)
        ensures { self.new ≡ self.old }
    {
        self.core.drop_notes();
    }

    /// Shows that each queue has exactly one place in its line for each of its consumers, whatever consumers came and left. Does nothing at run
    /// time.
    pub fn ghost_is_kept(&self)
        ensures { WaitersAreConsumers self.now }
    {
        self.core.ghost_is_kept();
    }

    /// Performs `event`, and returns what it sends and notes. If the event's method can be encoded, each send is for the event's own
    /// connection, by a method that can be encoded. No consumer is put back in its queue's order: a new one is behind all others.
    /// Fails only if an allocation fails; nothing has changed then. The events `Open`, `First`, `Lose`, `Pause` and `Resume`, an ignored command, and a
    /// rejection that requeues never allocate. A refused consume allocates no waiter.
    pub fn step(&mut self, alloc: Global, event: &Event) -> Result<Step, AllocError>
        requires asked { IsAsked event.now }
        // The promise: the model's step, whose sends go to the event's connection.
        ensures ok { IfOk result (λ s. ActsWith self.old.kept event.now s self.new.kept) }
        ensures addressed { IfOk result (λ s. AddressesOwn (broker_of self.old) event.now s.sends.items) }
        // The frame: the topology and the picked consumer are unchanged, no consumer is put back, and each waiter has its consumer.
        ensures topology { topology_kept self.new ≡ topology_kept self.old }
        ensures turn { self.new.turn ≡ self.old.turn }
        ensures later { OnOk result (NobodyIsPutBack self.old self.new) }
        ensures own { WaitersAreConsumers self.new }
        // A failure changes nothing, and the events that never allocate don't fail.
        ensures err { OnErr result (self.new ≡ self.old) }
        ensures quiet { WantsNoMemory (topology_kept self.old) (broker_of self.old) event.now → IsOk result }
    {
        brokers_stay_agreed();
        consumers_are_made();
        self.core.ghost_is_kept();
        let newcomer = self.rounds.expect_next(&self.core, event)?;
        let acted = self.core.step(alloc, event, &self.rounds)?;
        self.core.ghost_is_kept();
        self.rounds.join(&mut self.core, newcomer);
        let id = ChannelId {
            connection: connection_of(event),
            number: channel_of(event),
        };
        self.rounds.leave(id, &acted.ends);
        self.rounds.wake_for(&mut self.core, event);
        Ok(acted.step)
    }

    /// Returns how many messages have entered queues whose consumers lag behind. A hint: no contract says more.
    pub fn lagged(&self) -> u64 {
        self.core.lagged()
    }

    /// Picks the consumer of the next delivery, round-robin over the queues and over each queue's consumers. Returns `None` if no delivery can be
    /// made. Until something is delivered the same consumer is picked again, as long as a delivery can be made to it. Otherwise the picked one goes
    /// to the end of its queue's order, with those that came before it and can't take a message; all other orders are unchanged. If none is picked
    /// every order is unchanged. Never allocates.
    pub fn pick(&mut self) -> Option<Pick>
        // The state is unchanged, and the result is the picked consumer.
        ensures kept { self.new.kept ≡ self.old.kept }
        ensures turn { self.new.turn ≡ result }
        // Who is picked: the first in order, or the same as before.
        ensures complete { AllInLine self.old }
        ensures in_turn { IfSome result (λ p. IsPickedInTurn self.old p self.new) }
        ensures stay { result ≡ None → LinesStay self.old self.new }
        ensures again { (p : Consumer) → self.old.turn ≡ Some p → IsPick (broker_of self.old) p → result ≡ Some p }
        // A delivery can be made to the picked consumer; if none is picked, no delivery can be made at all.
        ensures some { IfSome result (λ p. IsPick (broker_of self.old) p) }
        ensures none { result ≡ None → (c : ℕ) → CanDeliver (broker_of self.old) c → ⊥ }
    {
        match turn_kept(&self.core, self.turn) {
            Some(pick) => Some(pick),
            None => self.find(),
        }
    }

    /// Picks the consumer of the next delivery in round-robin order, if any.
    fn find(&mut self) -> Option<Pick>
        // The state is unchanged, and the result is the picked consumer: the first in order.
        ensures kept { self.new.kept ≡ self.old.kept }
        ensures turn { self.new.turn ≡ result }
        ensures in_turn { IfSome result (λ p. IsPickedInTurn self.old p self.new) }
        ensures stay { result ≡ None → LinesStay self.old self.new }
        // A delivery can be made to it; if none is picked, no delivery can be made at all.
        ensures some { IfSome result (λ p. IsPick (broker_of self.old) p) }
        ensures none { result ≡ None → (c : ℕ) → CanDeliver (broker_of self.old) c → ⊥ }
    {
        self.turn = self.rounds.pick(&self.core);
        self.turn
    }

    /// Delivers the first ready message of the picked consumer's queue to it, and ends its turn.
    /// A consumer that waits in the same queue is passed over by fewer deliveries than the queue has consumers, this delivery among them.
    /// If each message can be encoded and consumers are named, the send is for the consumer's own connection, by a method that can be encoded.
    /// Fails only if an allocation fails; nothing has changed then, so the same consumer is picked again, as
    /// long as a delivery to it can be made.
    pub fn pump(&mut self, alloc: Global, pick: Pick) -> Result<Step, AllocError>
        requires { IsPick (broker_of self.old) pick }
        // The promise: this delivery, whose send goes to the consumer's connection.
        ensures ok { IfOk result (λ s. DeliversTo (broker_of self.old) pick s.sends.items s.notes.items (broker_of self.new)) }
        ensures addressed { IfOk result (λ s. AddressesTo self.old pick.connection s.sends.items) }
        // The turn is over, no consumer is put back, and those that wait were passed over by few deliveries.
        ensures over { OnOk result (self.new.turn ≡ None) }
        ensures later { OnOk result (NoneIsLater self.old self.new) }
        ensures soon { OnOk result (ServesSoon self.old pick) }
        // The frame; a failure changes nothing.
        ensures topology { topology_kept self.new ≡ topology_kept self.old }
        ensures err { OnErr result (self.new ≡ self.old) }
    {
        brokers_stay_agreed();
        consumers_are_made();
        let step = self.core.deliver(alloc, pick)?;
        self.core.ghost_is_kept();
        self.turn = None;
        Ok(step)
    }

    /// Makes `connection` a running one, with channels 1 to `channels` open and new. The unacknowledged messages of an earlier connection of this
    /// number are ready again. Fails only if an allocation fails; nothing has changed then.
    pub fn open(
        &mut self,
        alloc: Global,
        connection: u64,
        channel_max: u16,
        channels: u16,
    ) -> Result<(), AllocError>
        ensures ok { OnOk result (ActsAlone self.old.kept (event_is.Running connection channel_max channels) self.new.kept) }
        ensures topology { topology_kept self.new ≡ topology_kept self.old }
        ensures turn { self.new.turn ≡ self.old.turn }
        ensures later { OnOk result (NoneIsLater self.old self.new) }
        ensures err { OnErr result (self.new ≡ self.old) }
    {
        brokers_stay_agreed();
        consumers_are_made();
        self.core.ghost_is_kept();
        let before = self.core.open(alloc, connection, channel_max, channels)?;
        self.core.ghost_is_kept();
        let id = ChannelId {
            connection,
            number: 0,
        };
        self.rounds.leave(id, &Ends::Connection(before));
        Ok(())
    }

    /// Removes a connection that is lost, with its channels: its unacknowledged messages are ready again. Never allocates.
    pub fn lose(&mut self, connection: u64)
        ensures acts { ActsAlone self.old.kept (event_is.Lose connection) self.new.kept }
        ensures topology { topology_kept self.new ≡ topology_kept self.old }
        ensures turn { self.new.turn ≡ self.old.turn }
        ensures later { NoneIsLater self.old self.new }
    {
        brokers_stay_agreed();
        consumers_are_made();
        self.core.ghost_is_kept();
        let before = self.core.lose(connection);
        self.core.ghost_is_kept();
        let id = ChannelId {
            connection,
            number: 0,
        };
        self.rounds.leave(id, &Ends::Connection(before));
    }

    /// Records that the output of `connection` holds 1,048,576 bytes or more. Never allocates.
    pub fn pause(&mut self, connection: u64)
        ensures acts { ActsAlone self.old.kept (event_is.Pause connection) self.new.kept }
        ensures topology { topology_kept self.new ≡ topology_kept self.old }
        ensures turn { self.new.turn ≡ self.old.turn }
        ensures later { NoneIsLater self.old self.new }
    {
        brokers_stay_agreed();
        consumers_are_made();
        self.core.pause(connection);
        self.core.ghost_is_kept();
    }

    /// Records that the output of `connection` holds fewer than 1,048,576 bytes again. Never allocates.
    pub fn resume(&mut self, connection: u64)
        ensures acts { ActsAlone self.old.kept (event_is.Resume connection) self.new.kept }
        ensures topology { topology_kept self.new ≡ topology_kept self.old }
        ensures turn { self.new.turn ≡ self.old.turn }
        ensures later { NoneIsLater self.old self.new }
    {
        brokers_stay_agreed();
        consumers_are_made();
        self.core.resume(connection);
        self.core.ghost_is_kept();
        self.core.wake(connection, None, &mut self.rounds);
    }

    /// Returns the first obstacle to a reload to `topology` and `guarantees`, or `None` if there is none; users don't matter.
    /// Fails only if an allocation fails. It may allocate only if each queue in use is declared in `topology` and one of `guarantees` is a `never`, or
    /// if the first queue in use that is not declared has a name of more than 22 bytes.
    pub fn obstacle(
        &self,
        alloc: Global,
        topology: &Topology,
        guarantees: &[Guarantee],
    ) -> Result<Option<Obstacle>, AllocError>
        ensures reported { IfOk result (ReportsObstacle (topology_kept self.now) (broker_of self.now) topology.now guarantees.now) }
        ensures wants { OnErr result (JudgingMayAllocate (topology_kept self.now) topology.now guarantees.now (broker_of self.now)) }
    {
        self.core.obstacle(alloc, topology, guarantees)
    }

    /// Puts `topology` in force. Each message stays in the queue of its name and is marked as one that the reload found there; connections and
    /// channels are unchanged. No consumer is picked; each queue's consumers keep their order, and the round over the queues begins at the first.
    /// Fails only if an allocation fails; nothing has changed then.
    pub fn reload(&mut self, alloc: Global, topology: Topology) -> Result<(), AllocError>
        requires { NoneIsOrphaned (topology_kept self.old) topology (broker_of self.old) }
        // The new topology is in force, and messages are marked.
        ensures topology { OnOk result (topology_kept self.new ≡ topology) }
        ensures survived { OnOk result (Is (with_all_survived (broker_of self.old)) (broker_of self.new)) }
        // The order of consumers; a failure changes nothing.
        ensures turn { OnOk result (self.new.turn ≡ None) }
        ensures lines { OnOk result (LinesMove self.old self.new) }
        ensures err { OnErr result (self.new ≡ self.old) }
    {
        let empty = ConsumerRounds::new(alloc, topology.queues().len())?;
        self.core.ghost_is_kept();
        let places = self.core.reload(alloc, topology)?;
        self.core.ghost_is_kept();
        let old = mem::replace(&mut self.rounds, empty);
        self.rounds.take_over(old, &places);
        self.turn = None;
        Ok(())
    }
}
