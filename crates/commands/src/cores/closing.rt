//! Closes channels and connections, from both sides.

use crate::acted::{Acted, Ends};
use crate::cores::Core;
use crate::refusals::Refusal;
use channels::Channel;
use model::{ChannelId, Ids, Send};
use replies::{Step, channel_close, channel_close_ok, connection_close};
use std::alloc::{AllocError, Global};

impl Core {
    ghost use Rattle.std.specs.Prelude.{◌≡◌, [], ℕ, None, Some, true, false, IsSome, IfOk, IsOk, OnErr};
    ghost use Rattle.model.specs.Agreement.{IsAgreed};
    ghost use Rattle.model.specs.Grammar.{ids};
    ghost use Rattle.model.specs.Sending.{IsAddressed};
    ghost use Rattle.model.specs.Step as said;
    ghost use Rattle.model.specs.Step.{with_gone, with_closing};
    ghost use Rattle.model.specs.declared.methods.Method.TheVariants.{ChannelCloseOk};
    ghost use Rattle.commands.specs.State.{broker_of, channel_on, topology_kept};
    ghost use Rattle.commands.specs.Steps.{AnswersClose, PerformsOn, RefusesOn, ReplacesChannel, SendsOne};
    ghost use Rattle.channels.specs.Open.{Open};
    ghost use Rattle.commands.specs.Ended.{ReportsEnds};
    ghost use Rattle.commands.specs.declared.acted.Ends.TheVariants as ended;
    ghost use Rattle.commands.specs.Judged.{refusal_seen, HasChannel};
    ghost use Rattle.replies.specs.Sent.{AreAddressed};

    /// Sends `send`, a close or close-ok, and removes the connection.
    pub(crate) fn close_connection(
        &mut self,
        alloc: Global,
        connection: u64,
        send: Send,
    ) -> Result<Acted, AllocError>
        requires agreed { IsAgreed (broker_of self.old) }
        requires addressed { IsAddressed connection send }
        // The promise: `send` is all that is sent, and the connection is gone.
        ensures ok { IfOk result (λ a. SendsOne a.step send (with_gone (broker_of self.old) connection) self.new) }
        ensures addressed { IfOk result (λ a. AreAddressed connection a.step.sends.items) }
        // What ends: the connection's consumers, whichever of its channels asked for it.
        ensures ended { IfOk result (λ a. (h : ℕ) → ReportsEnds connection h a.ends self.old self.new) }
        // The frame; a failure changes nothing.
        ensures topology { topology_kept self.new ≡ topology_kept self.old }
        ensures err { OnErr result (self.new ≡ self.old) }
    {
        let step = Step::sending(alloc, send)?;
        let before = self.go(connection);
        Ok(Acted {
            step,
            ends: Ends::Connection(before),
        })
    }

    /// Requeues the unacknowledged deliveries of the channel, and replaces it by `channel`, or removes it if that is `None`. Returns the channel as it
    /// was.
    fn clear(&mut self, connection: u64, number: u16, channel: Option<Channel>) -> Option<Channel>
        // What the caller knows: the channel is open, and the new one holds nothing and has no consumer.
        requires agreed { IsAgreed (broker_of self.old) }
        requires there { IsSome ((broker_of self.old).channel connection number) }
        requires nothing { (k : Open) → channel ≡ Some k → k.given.outstanding ≡ [] }
        requires free { (k : Open) → channel ≡ Some k → k.given.consumers ≡ [] }
        // The channel is replaced, and what it held is ready again.
        ensures cleared { ReplacesChannel self.old connection number channel self.new }
        // What ends: its consumers.
        ensures ended { ReportsEnds connection number (ended.Channel result) self.old self.new }
        ensures topology { topology_kept self.new ≡ topology_kept self.old }
    {
        let held = self.connections.outstanding(connection, number);
        self.depot.requeue(ChannelId { connection, number }, held);
        self.connections.put(connection, number, channel)
    }

    /// Sends `send`, a close, on the channel. The channel awaits close-ok then, and its unacknowledged messages are ready again.
    fn close_channel(
        &mut self,
        alloc: Global,
        connection: u64,
        channel: u16,
        send: Send,
    ) -> Result<Acted, AllocError>
        requires agreed { IsAgreed (broker_of self.old) }
        requires there { IsSome ((broker_of self.old).channel connection channel) }
        requires addressed { IsAddressed connection send }
        // The promise: `send` is all that is sent, and the channel awaits close-ok.
        ensures ok { IfOk result (λ a. SendsOne a.step send (with_closing (broker_of self.old) connection channel) self.new) }
        ensures addressed { IfOk result (λ a. AreAddressed connection a.step.sends.items) }
        // What ends.
        ensures ended { IfOk result (λ a. ReportsEnds connection channel a.ends self.old self.new) }
        // The frame; a failure changes nothing.
        ensures topology { topology_kept self.new ≡ topology_kept self.old }
        ensures err { OnErr result (self.new ≡ self.old) }
    {
        let step = Step::sending(alloc, send)?;
        let before = self.clear(connection, channel, Some(Channel::closing(alloc)));
        Ok(Acted {
            step,
            ends: Ends::Channel(before),
        })
    }

    /// Handles the client's `channel.close`: replies with close-ok, and removes the channel.
    pub(crate) fn answer_close(
        &mut self,
        alloc: Global,
        connection: u64,
        channel: u16,
    ) -> Result<Acted, AllocError>
        requires agreed { IsAgreed (broker_of self.old) }
        requires there { IsSome ((broker_of self.old).channel connection channel) }
        requires closing { (channel_on self.old connection channel).is_closing ≡ false }
        // The promise: close-ok is all that is sent, and the channel is gone.
        ensures ok { IfOk result (λ a. AnswersClose self.old connection channel a.step self.new) }
        ensures addressed { IfOk result (λ a. AreAddressed connection a.step.sends.items) }
        // What ends.
        ensures ended { IfOk result (λ a. ReportsEnds connection channel a.ends self.old self.new) }
        // The frame; a failure changes nothing.
        ensures topology { topology_kept self.new ≡ topology_kept self.old }
        ensures err { OnErr result (self.new ≡ self.old) }
    {
        let step = Step::sending(alloc, channel_close_ok(connection, channel))?;
        let before = self.clear(connection, channel, None);
        Ok(Acted {
            step,
            ends: Ends::Channel(before),
        })
    }

    /// Handles the client's `channel.close` on a channel that awaits close-ok: replies with close-ok. The channel still awaits the client's.
    pub(crate) fn answer_closing(
        &self,
        alloc: Global,
        connection: u64,
        channel: u16,
    ) -> Result<Step, AllocError>
        requires { (channel_on self.now connection channel).is_closing ≡ true }
        ensures ok { IfOk result (λ s. AnswersClose self.now connection channel s self.now) }
        ensures addressed { IfOk result (λ s. AreAddressed connection s.sends.items) }
    {
        Step::sending(alloc, channel_close_ok(connection, channel))
    }

    /// Handles `channel.close-ok`: removes the channel.
    pub(crate) fn end_channel(&mut self, alloc: Global, connection: u64, channel: u16) -> Acted
        requires { IsSome ((broker_of self.old).channel connection channel) }
        ensures does { PerformsOn self.old connection channel ChannelCloseOk None result.step.sends.items result.step.notes.items self.new }
        ensures ended { ReportsEnds connection channel result.ends self.old self.new }
        ensures topology { topology_kept self.new ≡ topology_kept self.old }
    {
        let before = self.connections.put(connection, channel, None);
        Acted {
            step: Step::nothing(alloc),
            ends: Ends::Channel(before),
        }
    }

    /// Answers a refused method: ignores it, or closes its channel or its connection with the refusal's reply code and the ids of the method
    /// that caused it.
    pub(crate) fn refuse(
        &mut self,
        alloc: Global,
        connection: u64,
        channel: u16,
        cause: Ids,
        refusal: Refusal,
    ) -> Result<Acted, AllocError>
        requires agreed { IsAgreed (broker_of self.old) }
        requires there { HasChannel refusal ((broker_of self.old).channel connection channel) }
        // The promise: the model's refusal; an ignored method never fails.
        ensures ok { IfOk result (λ a. RefusesOn self.old connection channel (ids cause.class cause.method) refusal a.step self.new) }
        ensures ignored { refusal_seen refusal ≡ said.Ignored → IsOk result }
        ensures addressed { IfOk result (λ a. AreAddressed connection a.step.sends.items) }
        // What ends.
        ensures ended { IfOk result (λ a. ReportsEnds connection channel a.ends self.old self.new) }
        // The frame; a failure changes nothing.
        ensures topology { topology_kept self.new ≡ topology_kept self.old }
        ensures err { OnErr result (self.new ≡ self.old) }
    {
        match refusal {
            Refusal::Ignored => Ok(Acted::staying(Step::nothing(alloc))),
            Refusal::Channel(code) => {
                let send = channel_close(connection, channel, code, cause);
                self.close_channel(alloc, connection, channel, send)
            }
            Refusal::Connection(code) => {
                let send = connection_close(connection, code, cause);
                self.close_connection(alloc, connection, send)
            }
        }
    }
}
