//! The broker's state, and its step, case by case.

mod closing;
mod declaring;
mod delivering;
mod leaving;
mod new_consumers;
mod obstacles;
mod opening;
mod reloads;
mod running;

use crate::acted::{Acted, Ends};
use crate::commands::{Done, Left, on_channel, on_none};
use crate::counts::Counts;
use crate::refusals::{Refusal, Stop, judge_large};
use channels::{RunningConnections, ghost_lent_channels_are_put};
use depot::Depot;
use exchange_graph::Topology;
use model::{ChannelId, Content, Event, Ids, Method};
use replies::{Step, connection_close, connection_close_ok};
use std::alloc::{AllocError, Global};
use std::marker::Model;

/// The ids of `basic.publish`, for the close that answers a refused one.
const PUBLISH: Ids = Ids {
    class: 60,
    method: 40,
};

/// The queues, and the running connections with their channels.
pub struct Core {
    depot: Depot,
    connections: RunningConnections,
}

/// Not derived: a derived drop is expanded, and proved again, in each function that drops the value.
impl Drop for Core {
    fn drop(self) {
        let Core {
            depot: _,
            connections: _,
        } = self;
    }
}

impl Model for Core {
    ghost use Rattle.commands.specs.State.{Kept};
    ghost use Rattle.commands.specs.State.{ArePlaced};

    ghost Value = { Kept };

    ghost view = { λ b. record { store = b.depot; connections = b.connections } };

    ghost invariant = { λ b. ArePlaced (record { store = b.depot; connections = b.connections }) };
}

impl Core {
    ghost use Rattle.std.specs.Prelude.{◌≡◌, true, IsSome, IfSome, IfOk, IsOk, OnErr};
    ghost use Rattle.model.specs.Agreement.{IsAgreed};
    ghost use Rattle.model.specs.Sending.{AreCarried};
    ghost use Rattle.model.specs.Grammar.{IsMethod};
    ghost use Rattle.model.specs.Step.{Is};
    ghost use Rattle.model.specs.declared.events.Event.TheVariants as event_is;
    ghost use Rattle.commands.specs.State.{broker_of, topology_kept, nothing};
    ghost use Rattle.commands.specs.Steps.{ActsWith, AddressesLeft, AddressesOwn, AddressesReplies, FinishesOn, IsIgnoredOn, IsRequeuedOn};
    ghost use Rattle.commands.specs.Commands.{AnswersOn, CanFinish, IsAddressedBy, IsNotPerformed, UnlessPerformed, WantsNone};
    ghost use Rattle.commands.specs.Counted.{AreCounted};
    ghost use Rattle.commands.specs.Ended.{channel_of_event, ReportsEnds};
    ghost use Rattle.commands.specs.Judged.{is_requeueing, opens_or_closes, IsAsked, IsLargeIgnored, WantsNoMemory, JudgesLarge};
    ghost use Rattle.replies.specs.Sent.{AreAddressed, connection_of_event};

    /// Makes a core of `topology`: its queues are empty, and no connection is running. Fails only if an allocation fails.
    pub fn new(alloc: Global, topology: Topology) -> Result<Core, AllocError>
        ensures topology { IfOk result (λ b. topology_kept b ≡ topology) }
        ensures empty { IfOk result (λ b. Is nothing (broker_of b)) }
    {
        Ok(Core {
            depot: Depot::new(alloc, topology)?,
            connections: RunningConnections::new(alloc),
        })
    }

    /// Stops keeping notes, for a caller that reads none. Contracts see no difference.
    pub fn drop_notes(&mut self)
        ensures { self.new ≡ self.old }
    {
        self.depot.drop_notes();
    }

    /// Performs what a command does on its channel alone, and returns what else it asks for; `None` if its connection is not running. The connection
    /// and the channel are looked up once.
    fn decide<'a>(
        &mut self,
        alloc: Global,
        id: ChannelId,
        method: &'a Method,
        content: &Option<Content>,
    ) -> Option<Result<Done<'a>, Stop>>
        requires { IsAgreed (broker_of self.old) }
        // What the result means, and that all that is sent is for this connection.
        ensures answers { AnswersOn self.old id.connection id.number method.now content.now result self.new }
        ensures addressed { IsMethod method.now → AreCarried (broker_of self.old) → IfSome result (IsAddressedBy id.connection) }
        // The frame; a command that was not performed changes nothing.
        ensures topology { topology_kept self.new ≡ topology_kept self.old }
        ensures kept { IfSome result (λ r. UnlessPerformed r (self.new ≡ self.old)) }
        // A rejection that requeues never fails to allocate, and nothing is opened or closed here.
        ensures quiet { is_requeueing method.now ≡ true → IfSome result WantsNone }
        ensures elsewhere { opens_or_closes method.now ≡ true → IfSome result IsNotPerformed }
    {
        ghost_lent_channels_are_put();
        let running = self.connections.running_mut(id.connection)?;
        let channel_max = running.channel_max();
        match running.channel_mut(id.number) {
            Some(channel) => Some(on_channel(
                alloc,
                id,
                channel_max,
                channel,
                &mut self.depot,
                method,
                content,
            )),
            None => Some(on_none(channel_max, id.number, method)),
        }
    }

    /// Returns the refusal of a publish whose content is too large, or `None` if its connection is not running.
    fn judge_large(&self, connection: u64, channel: u16) -> Option<Refusal>
        ensures { JudgesLarge (broker_of self.now) connection channel result }
    {
        match self.connections.get(connection) {
            None => None,
            Some(running) => Some(judge_large(running, channel)),
        }
    }

    /// Does `left`, what a command asks for that needs more than its channel. Fails only if an allocation fails; nothing has changed then.
    fn finish<N: Counts>(
        &mut self,
        alloc: Global,
        id: ChannelId,
        left: Left<'_>,
        counts: &N,
    ) -> Result<Acted, AllocError>
        requires agreed { IsAgreed (broker_of self.old) }
        requires counted { AreCounted self.old (N.is_count counts.now) }
        requires runs { IsSome ((broker_of self.old).connection id.connection) }
        requires can { CanFinish (topology_kept self.old) ((broker_of self.old).channel id.connection id.number) left }
        // The promise: the model's step for the method, whose sends go to this connection.
        ensures ok { IfOk result (λ a. FinishesOn self.old id.connection id.number left.entry a.step self.new) }
        ensures addressed { IfOk result (λ a. AddressesLeft self.old id.connection id.number left.entry a.step.sends.items) }
        // What ends.
        ensures ended { IfOk result (λ a. ReportsEnds id.connection id.number a.ends self.old self.new) }
        // The frame; a failure changes nothing.
        ensures topology { topology_kept self.new ≡ topology_kept self.old }
        ensures err { OnErr result (self.new ≡ self.old) }
    {
        let ChannelId { connection, number } = id;
        match left {
            Left::OpenChannel => {
                let step = self.open_channel(alloc, connection, number)?;
                Ok(Acted::staying(step))
            }
            Left::AnswerClose => self.answer_close(alloc, connection, number),
            Left::AnswerClosing => {
                let step = self.answer_closing(alloc, connection, number)?;
                Ok(Acted::staying(step))
            }
            Left::EndChannel => Ok(self.end_channel(alloc, connection, number)),
            Left::CloseConnection => {
                self.close_connection(alloc, connection, connection_close_ok(connection))
            }
            Left::FindQueue(place, declare) => {
                let step = self.find_queue(alloc, connection, number, place, declare, counts)?;
                Ok(Acted::staying(step))
            }
        }
    }

    /// Performs or refuses a command; does nothing if its connection is not running. Fails only if an allocation fails; nothing has changed then.
    fn command<N: Counts>(
        &mut self,
        alloc: Global,
        id: ChannelId,
        method: &Method,
        content: &Option<Content>,
        counts: &N,
    ) -> Result<Acted, AllocError>
        requires agreed { IsAgreed (broker_of self.old) }
        requires counted { AreCounted self.old (N.is_count counts.now) }
        // The promise: the model's step for the command.
        ensures ok { IfOk result (λ a. ActsWith self.old (event_is.Command id.connection id.number method.now content.now) a.step self.new) }
        // A rejection that requeues and an ignored command never fail.
        ensures requeued { IsRequeuedOn self.old id.connection id.number method.now → IsOk result }
        ensures ignored { IsIgnoredOn self.old id.connection id.number method.now → IsOk result }
        ensures addressed { IfOk result (λ a. AddressesReplies (broker_of self.old) id.connection method.now a.step.sends.items) }
        // What ends.
        ensures ended { IfOk result (λ a. ReportsEnds id.connection id.number a.ends self.old self.new) }
        // The frame; a failure changes nothing.
        ensures topology { topology_kept self.new ≡ topology_kept self.old }
        ensures err { OnErr result (self.new ≡ self.old) }
    {
        let cancelled = self.cancelled(id, method);
        match self.decide(alloc, id, method, content) {
            None => Ok(Acted::staying(Step::nothing(alloc))),
            Some(Ok(Done::Performed(step))) => Ok(Acted::ending(step, cancelled)),
            Some(Ok(Done::Left(left))) => self.finish(alloc, id, left, counts),
            Some(Err(Stop::Refused(refusal))) => {
                self.refuse(alloc, id.connection, id.number, method.ids(), refusal)
            }
            Some(Err(Stop::Memory)) => Err(AllocError),
        }
    }

    /// Refuses a publish whose content is too large; does nothing if its connection is not running. Fails only if an allocation fails; nothing
    /// has changed then.
    fn refuse_large(
        &mut self,
        alloc: Global,
        connection: u64,
        channel: u16,
    ) -> Result<Acted, AllocError>
        requires { IsAgreed (broker_of self.old) }
        // The promise: the model's step; an ignored publish never fails.
        ensures ok { IfOk result (λ a. ActsWith self.old (event_is.TooLarge connection channel) a.step self.new) }
        ensures ignored { IsLargeIgnored (broker_of self.old) connection channel ((broker_of self.old).connection connection) → IsOk result }
        ensures addressed { IfOk result (λ a. AreAddressed connection a.step.sends.items) }
        // What ends.
        ensures ended { IfOk result (λ a. ReportsEnds connection channel a.ends self.old self.new) }
        // The frame; a failure changes nothing.
        ensures topology { topology_kept self.new ≡ topology_kept self.old }
        ensures err { OnErr result (self.new ≡ self.old) }
    {
        match self.judge_large(connection, channel) {
            None => Ok(Acted::staying(Step::nothing(alloc))),
            Some(refusal) => self.refuse(alloc, connection, channel, PUBLISH, refusal),
        }
    }

    /// Performs `event`, and returns what it sends and notes, and which consumers it ends; `counts` knows how many consumers each queue has. If the
    /// event's method can be encoded, each send is for the event's own connection, with a method that can be encoded. Fails only if an allocation
    /// fails; nothing has changed then. The events `Open`, `First`, `Lose`, `Pause` and `Resume`, an ignored command, and a rejection that requeues
    /// never allocate.
    pub fn step<N: Counts>(
        &mut self,
        alloc: Global,
        event: &Event,
        counts: &N,
    ) -> Result<Acted, AllocError>
        requires agreed { IsAgreed (broker_of self.old) }
        requires counted { AreCounted self.old (N.is_count counts.now) }
        requires asked { IsAsked event.now }
        // The promise: the model's step, whose sends go to the event's connection.
        ensures ok { IfOk result (λ a. ActsWith self.old event.now a.step self.new) }
        ensures addressed { IfOk result (λ a. AddressesOwn (broker_of self.old) event.now a.step.sends.items) }
        // Which consumers end.
        ensures ended { IfOk result (λ a. ReportsEnds (connection_of_event event.now) (channel_of_event event.now) a.ends self.old self.new) }
        // The frame; a failure changes nothing, and the events that never allocate don't fail.
        ensures topology { topology_kept self.new ≡ topology_kept self.old }
        ensures err { OnErr result (self.new ≡ self.old) }
        ensures quiet { WantsNoMemory (topology_kept self.old) (broker_of self.old) event.now → IsOk result }
    {
        match event {
            Event::Open { .. } | Event::First { .. } => { Ok(Acted::staying(Step::nothing(alloc))) }
            Event::Running {
                connection,
                channel_max,
                channels,
            } => {
                let before = self.open(alloc, *connection, *channel_max, *channels)?;
                Ok(Acted {
                    step: Step::nothing(alloc),
                    ends: Ends::Connection(before),
                })
            }
            Event::Command {
                connection,
                channel,
                method,
                content,
            } => {
                let id = ChannelId {
                    connection: *connection,
                    number: *channel,
                };
                self.command(alloc, id, method, content, counts)
            }
            Event::TooLarge {
                connection,
                channel,
            } => self.refuse_large(alloc, *connection, *channel),
            Event::Fault { connection, code } => {
                let cause = Ids {
                    class: 0,
                    method: 0,
                };
                let send = connection_close(*connection, *code, cause);
                self.close_connection(alloc, *connection, send)
            }
            Event::Lose { connection } => {
                let before = self.go(*connection);
                Ok(Acted {
                    step: Step::nothing(alloc),
                    ends: Ends::Connection(before),
                })
            }
            Event::Pause { connection } => {
                self.pause(*connection);
                Ok(Acted::staying(Step::nothing(alloc)))
            }
            Event::Resume { connection } => {
                self.resume(*connection);
                Ok(Acted::staying(Step::nothing(alloc)))
            }
            Event::Deliver { .. } => unreachable!(),
        }
    }
}
