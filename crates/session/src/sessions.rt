//! The session of one connection. Start with [`Session`].

ghost use Rattle.std.specs.Prelude.{◌≡◌, List, ◌∷◌};
ghost use Rattle.model.specs.Phases.{after_sends};
ghost use Rattle.model.specs.Phases as said;
ghost use Rattle.model.specs.declared.events.Send as sent;

use crate::answers::{OpeningAnswer, answer_to, logs_in};
use crate::sends::{close, greeting, nothing, one, start};
use model::{Ids, Method, Phase, Publish, Send, Text, User, limits};
use std::alloc::{AllocError, Global};
use std::marker::Model;

/// The phase of a connection and the limits in force: the highest channel number, and the longest frame in bytes.
#[derive(Drop)]
pub struct Session {
    phase: Phase,
    channel_max: u16,
    frame_max: u32,
}

impl Model for Session {
    ghost use Rattle.model.specs.Phases.{Session as Seen};
    ghost use Rattle.session.specs.Limits.{IsSession};

    ghost Value = { Seen };

    ghost view = { λ s. record { phase = s.phase; channel_max = s.channel_max; frame_max = s.frame_max } };

    ghost invariant = { λ s. IsSession (record { phase = s.phase; channel_max = s.channel_max; frame_max = s.frame_max }) };
}

/// Returns the phase to which sending `method` leads, if it is a close or close-ok; otherwise `after`, the phase to which the sends behind it lead.
fn after_method(method: &Method, after: Phase) -> Phase
    ensures { result ≡ said.after_method method.now after }
{
    match method {
        Method::ConnectionClose(_) => Phase::Closing,
        Method::ConnectionCloseOk => Phase::Over,
        _ => after,
    }
}

/// Returns the phase after `send` and the sends behind it; `after` is the phase after the sends behind it alone.
fn after_send(send: &Send, after: Phase) -> Phase
    ensures { (sends : List sent.Send) → after ≡ after_sends sends → result ≡ after_sends (send.now ∷ sends) }
{
    match send {
        Send::Greeting { .. } => after,
        Send::Command { method, .. } => after_method(method, after),
    }
}

/// Returns the phase of a running connection after `sends`: a close awaits close-ok, and a close-ok ends the connection.
fn phase_after(sends: &[Send]) -> Phase
    ensures { result ≡ after_sends sends.now }
{
    let mut phase = Phase::Running;
    let mut left = sends.len();
    while left > 0 {
        left -= 1;
        phase = after_send(&sends[left], phase);
    }
    phase
}

impl Session {
    ghost use Rattle.std.specs.Prelude.{◌≡◌, ◌≤◌, [], ◌∷◌, true, false, IfOk, IsOk, OnErr, OnOk, IsTrue};
    ghost use Rattle.model.specs.Phases.{Move, running_session, no_session, while_closing, faulted, after_sends, to_phase, is_running};
    ghost use Rattle.model.specs.Opening.{new_session, first_move, MovesInOpening, IsAnswered};
    ghost use Rattle.model.specs.Arrivals.{is_ended};
    ghost use Rattle.model.specs.Step.{empty_publish};
    ghost use Rattle.model.specs.declared.events.Phase.TheVariants as phase;
    ghost use Rattle.model.specs.Sending.{AreOwn};
    ghost use Rattle.session.specs.Answers.{sending};

    /// Returns a session that awaits the protocol header. Until limits are agreed on, a frame has at most 4,096 bytes.
    pub fn new() -> Session
        ensures { result ≡ new_session }
    {
        Session {
            phase: Phase::Header,
            channel_max: limits::CHANNEL_MAX,
            frame_max: 4096,
        }
    }

    /// Returns a session that is running already, with channels up to 255 and frames of at most 131,072 bytes.
    pub fn running() -> Session
        ensures { result ≡ running_session }
    {
        Session {
            phase: Phase::Running,
            channel_max: limits::CHANNEL_MAX,
            frame_max: 131_072,
        }
    }

    /// Returns a copy of this session.
    pub fn copied(&self) -> Session
        ensures { result ≡ self.now }
    {
        Session {
            phase: self.phase,
            channel_max: self.channel_max,
            frame_max: self.frame_max,
        }
    }

    /// Returns the connection's phase.
    pub fn phase(&self) -> Phase
        ensures { result ≡ self.now.phase }
    {
        self.phase
    }

    /// Returns the limits in force: the highest channel number, and the longest frame in bytes.
    pub fn limits(&self) -> (u16, u32)
        ensures channels { result.0 ≡ self.now.channel_max }
        ensures frame { result.1 ≡ self.now.frame_max }
    {
        (self.channel_max, self.frame_max)
    }

    /// Returns the highest channel number.
    pub fn channel_max(&self) -> u16
        ensures { result ≡ self.now.channel_max }
    {
        self.channel_max
    }

    /// Returns the length of the longest frame, in bytes: 4,096 until a tune-ok is accepted, at most 131,072 afterwards.
    pub fn frame_max(&self) -> u32
        ensures value { result ≡ self.now.frame_max }
        ensures least { 4096 ≤ result }
        ensures most { result ≤ 131072 }
    {
        self.frame_max
    }

    /// Returns whether the session is over: nothing is read or sent any more.
    pub fn is_over(&self) -> bool
        ensures value { result ≡ is_ended self.now.phase }
        ensures nothing_kept { IsTrue result → self.now ≡ no_session }
    {
        matches!(self.phase, Phase::Over)
    }

    /// Ends the session. Nothing is read or sent after this.
    pub fn end(&mut self)
        ensures { self.new ≡ to_phase self.old phase.Over }
    {
        self.phase = Phase::Over;
        self.channel_max = limits::CHANNEL_MAX;
        self.frame_max = 131_072;
    }

    /// Follows what the broker sent: after `connection.close` the session awaits close-ok, after close-ok it is over. Does
    /// nothing unless the connection is running.
    pub fn after(&mut self, sends: &[Send])
        ensures running { is_running self.old.phase ≡ true → self.new ≡ to_phase self.old (after_sends sends.now) }
        ensures others { is_running self.old.phase ≡ false → self.new ≡ self.old }
    {
        if matches!(self.phase, Phase::Running) {
            self.move_to(phase_after(sends));
        }
    }

    /// Goes to `phase`. A session that is over forgets the limits that were agreed on.
    fn move_to(&mut self, phase: Phase)
        ensures { self.new ≡ to_phase self.old phase }
    {
        match phase {
            Phase::Over => self.end(),
            _ => self.phase = phase,
        }
    }

    /// Answers the first eight bytes of a connection. The protocol header gets `connection.start`; any other bytes get the
    /// protocol header, and the session is over. In any phase but the first nothing is sent and nothing changes.
    ///
    /// Fails only if an allocation fails; nothing has changed then. If nothing is to be sent it never fails.
    pub fn first(
        &mut self,
        alloc: Global,
        connection: u64,
        bytes: &[u8; 8],
    ) -> Result<Vec<Send>, AllocError>
        ensures own { IfOk result (λ sends. AreOwn connection sends.items) }
        ensures quiet { (first_move connection self.old self.old.phase bytes.now).sends ≡ [] → IsOk result }
        ensures sends { IfOk result (λ sends. sends.items ≡ (first_move connection self.old self.old.phase bytes.now).sends) }
        ensures ok { OnOk result (self.new ≡ (first_move connection self.old self.old.phase bytes.now).next) }
        ensures err { OnErr result (self.new ≡ self.old) }
    {
        if !matches!(self.phase, Phase::Header) {
            return Ok(nothing(alloc));
        }
        if bytes.as_slice() == b"AMQP\x00\x00\x09\x01".as_slice() {
            let sends = one(alloc, connection, start(alloc)?)?;
            self.move_to(Phase::Start);
            Ok(sends)
        } else {
            let sends = greeting(alloc, connection)?;
            self.move_to(Phase::Over);
            Ok(sends)
        }
    }

    /// Answers a method while close-ok is awaited. Replies to a close on channel 0, ends at a close-ok on channel 0, and ignores
    /// the rest.
    fn take_closing(
        &mut self,
        alloc: Global,
        connection: u64,
        channel: u16,
        method: &Method,
    ) -> Result<Vec<Send>, AllocError>
        ensures own { IfOk result (λ sends. AreOwn connection sends.items) }
        ensures quiet { (while_closing connection self.old channel method.now).sends ≡ [] → IsOk result }
        ensures answered { IfOk result (λ sends. sending sends.items self.new ≡ while_closing connection self.old channel method.now) }
        ensures err { OnErr result (self.new ≡ self.old) }
    {
        if channel != 0 {
            return Ok(nothing(alloc));
        }
        match method {
            Method::ConnectionClose(_) => one(alloc, connection, Method::ConnectionCloseOk),
            Method::ConnectionCloseOk => {
                self.end();
                Ok(nothing(alloc))
            }
            _ => Ok(nothing(alloc)),
        }
    }

    /// Answers a method by the table of the opening phases.
    fn take_opening(
        &mut self,
        alloc: Global,
        connection: u64,
        channel: u16,
        method: &Method,
        users: &[User],
    ) -> Result<Vec<Send>, AllocError>
        ensures own { IfOk result (λ sends. AreOwn connection sends.items) }
        ensures quiet { (move : Move) → MovesInOpening users.now connection self.old channel method.now move → move.sends ≡ [] → IsOk result }
        ensures opens { IfOk result (λ sends. MovesInOpening users.now connection self.old channel method.now (sending sends.items self.new)) }
        ensures err { OnErr result (self.new ≡ self.old) }
    {
        let is_user = logs_in(users, self.phase, method);
        match answer_to(self.phase, channel, method, is_user) {
            OpeningAnswer::Nothing => Ok(nothing(alloc)),
            OpeningAnswer::Tunes {
                channel_max,
                frame_max,
            } => {
                self.phase = Phase::Open;
                self.channel_max = channel_max;
                self.frame_max = frame_max;
                Ok(nothing(alloc))
            }
            OpeningAnswer::Says {
                method: said,
                phase,
            } => {
                let sends = one(alloc, connection, said)?;
                self.move_to(phase);
                Ok(sends)
            }
        }
    }

    /// Answers a method in a phase other than Running.
    ///
    /// Before Running the table of the opening decides: the login by `users`, the limits, the vhost. While close-ok is awaited
    /// the session replies to a close on channel 0, ends at a close-ok on channel 0, and ignores the rest.
    ///
    /// Fails only if an allocation fails; nothing has changed then. If nothing is to be sent it never fails.
    pub fn take(
        &mut self,
        alloc: Global,
        connection: u64,
        channel: u16,
        method: &Method,
        users: &[User],
    ) -> Result<Vec<Send>, AllocError>
        ensures own { IfOk result (λ sends. AreOwn connection sends.items) }
        ensures quiet { (move : Move) → IsAnswered users.now connection self.old self.old.phase channel method.now move → move.sends ≡ [] → IsOk result }
        ensures answered { IfOk result (λ sends. IsAnswered users.now connection self.old self.old.phase channel method.now (sending sends.items self.new)) }
        ensures err { OnErr result (self.new ≡ self.old) }
    {
        match self.phase {
            Phase::Closing => self.take_closing(alloc, connection, channel, method),
            _ => self.take_opening(alloc, connection, channel, method, users),
        }
    }

    /// Answers a publish whose content is too large, in a phase other than Running, as [`Session::take`] answers any publish.
    ///
    /// Fails only if an allocation fails; nothing has changed then. If nothing is to be sent it never fails.
    pub fn take_large(
        &mut self,
        alloc: Global,
        connection: u64,
        channel: u16,
        users: &[User],
    ) -> Result<Vec<Send>, AllocError>
        ensures own { IfOk result (λ sends. AreOwn connection sends.items) }
        ensures quiet { (move : Move) → IsAnswered users.now connection self.old self.old.phase channel empty_publish move → move.sends ≡ [] → IsOk result }
        ensures answered { IfOk result (λ sends. IsAnswered users.now connection self.old self.old.phase channel empty_publish (sending sends.items self.new)) }
        ensures err { OnErr result (self.new ≡ self.old) }
    {
        let publish = Publish {
            reserved: 0,
            exchange: Text::empty(),
            routing_key: Text::empty(),
            mandatory: false,
            immediate: false,
        };
        let method = Method::BasicPublish(publish);
        let sends = self.take(alloc, connection, channel, &method, users);
        drop(method);
        sends
    }

    /// Ends the session because the client broke the wire format: sends `connection.close` with reply code `code`. While close-ok
    /// is awaited, or if the session is over already, nothing is sent.
    ///
    /// Fails only if an allocation fails; nothing has changed then. If nothing is to be sent it never fails.
    pub fn fault(
        &mut self,
        alloc: Global,
        connection: u64,
        code: u16,
    ) -> Result<Vec<Send>, AllocError>
        ensures own { IfOk result (λ sends. AreOwn connection sends.items) }
        ensures quiet { (faulted connection self.old self.old.phase code).sends ≡ [] → IsOk result }
        ensures sends { IfOk result (λ sends. sends.items ≡ (faulted connection self.old self.old.phase code).sends) }
        ensures ok { OnOk result (self.new ≡ (faulted connection self.old self.old.phase code).next) }
        ensures err { OnErr result (self.new ≡ self.old) }
    {
        match self.phase {
            Phase::Closing => {
                self.end();
                Ok(nothing(alloc))
            }
            Phase::Over => Ok(nothing(alloc)),
            _ => {
                let cause = Ids {
                    class: 0,
                    method: 0,
                };
                let sends = one(alloc, connection, close(code, cause))?;
                self.end();
                Ok(sends)
            }
        }
    }
}
