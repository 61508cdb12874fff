//! Performs one event of one connection.

ghost use Rattle.std.specs.Prelude.{◌≡◌, ◌<◌, true, false, IfOk, OnErr, OnOk};
ghost use Rattle.model.specs.Step.{Is};
ghost use Rattle.model.specs.Phases.{is_running};
ghost use Rattle.model.specs.State.{after_move};
ghost use Rattle.model.specs.Arrivals.{IsSaid};
ghost use Rattle.model.specs.Sending.{AreCarried, AreOwn};
ghost use Rattle.broker.specs.Turns.{topology_kept, broker_of};
ghost use Rattle.broker.specs.Waiting.{NobodyIsPutBack, NoneIsLater};
ghost use Rattle.engine.specs.Performing.{IsAskedBy, session_after, AnswersByPhase, IsAnswerTo, PausesOr, PerformsByPhase};
ghost use Rattle.engine.specs.Allocating.{brings_message as brings, AreWithin, room_wanted};
ghost use Rattle.outputs.specs.Storages.{AreAtMost, IsReleased, IsWhole};

use crate::reserve::{self, hold_for};
use broker::{Broker, Step};
use model::{Event, Phase, Send, User};
use notes::Notes;
use outputs::Spares;
use session::Session;
use std::alloc::{AllocError, Global};

/// Updates a running `session` by `sends`, what the broker sent at `event`.
fn learn(session: &mut Session, event: &Event, sends: &[Send])
    ensures { is_running session.old.phase ≡ true → session.new ≡ session_after session.old event.now sends.now }
{
    match event {
        Event::Fault { .. } => session.end(),
        _ => session.after(sends),
    }
}

/// Returns the answer of connection `c`'s phase to `event`, and moves `session`. Fails only if an allocation fails.
fn sends_of(
    c: u64,
    alloc: Global,
    users: &[User],
    session: &mut Session,
    event: &Event,
) -> Result<Vec<Send>, AllocError>
    requires { IsAskedBy c event.now }
    ensures answered { IfOk result (λ s. IsAnswerTo users.now session.old.phase session.old event.now (record { sends = s.items; next = session.new })) }
    ensures own { IfOk result (λ sends. AreOwn c sends.items) }
{
    match event {
        Event::First { bytes, .. } => session.first(alloc, c, bytes),
        Event::Command {
            channel,
            method,
            ..
        } => session.take(alloc, c, *channel, method, users),
        Event::TooLarge { channel, .. } => session.take_large(alloc, c, *channel, users),
        Event::Fault { code, .. } => session.fault(alloc, c, *code),
        _ => unreachable!(),
    }
}

/// Opens connection `c` at the broker, without channels, if it is running now. Fails only if an allocation fails.
fn open_if(c: u64, alloc: Global, broker: &mut Broker, session: &Session) -> Result<(), AllocError>
    ensures ok { OnOk result (Is (after_move (broker_of broker.old) c session.now) (broker_of broker.new)) }
    ensures err { OnErr result (broker.new ≡ broker.old) }
    ensures topology { topology_kept broker.new ≡ topology_kept broker.old }
    ensures turn { broker.new.turn ≡ broker.old.turn }
    ensures later { OnOk result (NoneIsLater broker.old broker.new) }
{
    match session.phase() {
        Phase::Running => broker.open(alloc, c, session.channel_max(), 0),
        _ => Ok(()),
    }
}

/// Answers an event of connection `c`, which is not running. If an allocation fails nothing has changed: the session moves only after the
/// broker has accepted the connection.
pub(crate) fn by_phase(
    c: u64,
    alloc: Global,
    users: &[User],
    broker: &mut Broker,
    session: &mut Session,
    event: &Event,
) -> Result<Step, AllocError>
    requires asked { IsAskedBy c event.now }
    // The promise: what the phase answers, all of it for this connection.
    ensures ok { IfOk result (λ d. AnswersByPhase users.now c broker.old session.old event.now d broker.new session.new) }
    ensures own { IfOk result (λ d. AreOwn c d.sends.items) }
    // A failure changes nothing.
    ensures broker_kept { OnErr result (broker.new ≡ broker.old) }
    ensures session_kept { OnErr result (session.new ≡ session.old) }
    // The frame: the topology and the picked consumer are unchanged, and no consumer is put back.
    ensures topology { topology_kept broker.new ≡ topology_kept broker.old }
    ensures turn { broker.new.turn ≡ broker.old.turn }
    ensures later { OnOk result (NobodyIsPutBack broker.old broker.new) }
{
    let mut next = session.copied();
    let sends = sends_of(c, alloc, users, &mut next, event)?;
    open_if(c, alloc, broker, &next)?;
    *session = next;
    Ok(Step {
        sends,
        notes: Notes::new(alloc),
    })
}

/// Performs the first eight bytes of connection `c`, a command of it, or the fault of its stream. The broker performs the event if the connection
/// is running; otherwise its phase answers. A command with a content is performed only while the reserve is whole. Any other event
/// fails only if an allocation fails after the reserve was freed for it.
pub(crate) fn perform(
    c: u64,
    alloc: Global,
    users: &[User],
    broker: &mut Broker,
    session: &mut Session,
    spares: &mut Spares,
    event: &Event,
) -> Result<Step, AllocError>
    // What the caller knows: the event was read from this connection's bytes.
    requires asked { IsAskedBy c event.now }
    requires said { IsSaid event.now }
    requires carried { AreCarried (broker_of broker.old) }
    // The promise: the model's step for this phase, whose sends all go to this connection.
    ensures ok { IfOk result (λ d. PerformsByPhase users.now c broker.old session.old event.now d broker.new session.new) }
    ensures own { IfOk result (λ d. AreOwn c d.sends.items) }
    ensures size { IfOk result (λ d. AreWithin (room_wanted event.now) d.sends.items) }
    // A failure changes nothing.
    ensures broker_kept { OnErr result (broker.new ≡ broker.old) }
    ensures session_kept { OnErr result (session.new ≡ session.old) }
    // The frame: the topology and the picked consumer are unchanged, and no consumer is put back.
    ensures topology { topology_kept broker.new ≡ topology_kept broker.old }
    ensures turn { broker.new.turn ≡ broker.old.turn }
    ensures later { OnOk result (NobodyIsPutBack broker.old broker.new) }
    // The reserve: a publish needs it whole, and fails only if nothing is spare beyond it; anything else fails only after it was freed.
    ensures whole { OnOk result (brings event.now ≡ true → IsWhole spares.new) }
    ensures last { OnErr result (brings event.now ≡ false → IsReleased spares.new) }
    ensures spare { OnErr result (AreAtMost 16 8 spares.new) }
    ensures kept { brings event.now ≡ false → 3 < spares.new.contents → spares.new ≡ spares.old }
{
    hold_for(spares, event)?;
    match session.phase() {
        Phase::Running => {
            let step = reserve::step(alloc, broker, spares, event)?;
            learn(session, event, &step.sends);
            Ok(step)
        }
        _ => reserve::by_phase(c, alloc, users, broker, session, spares, event),
    }
}

/// Pauses connection `c` at the broker if `is`, which says that the connection's output is past the bound now.
pub(crate) fn pause_if(broker: &mut Broker, c: u64, is: bool)
    ensures pauses { PausesOr (topology_kept broker.old) c false is (broker_of broker.old) (broker_of broker.new) }
    ensures topology { topology_kept broker.new ≡ topology_kept broker.old }
    ensures turn { broker.new.turn ≡ broker.old.turn }
    ensures later { NoneIsLater broker.old broker.new }
{
    if is {
        broker.pause(c);
    }
}

/// Resumes connection `c` at the broker if its output was past the bound and no longer is.
pub(crate) fn resume_if(broker: &mut Broker, c: u64, was: bool, is: bool)
    requires { is ≡ true → was ≡ true }
    ensures pauses { PausesOr (topology_kept broker.old) c was is (broker_of broker.old) (broker_of broker.new) }
    ensures topology { topology_kept broker.new ≡ topology_kept broker.old }
    ensures turn { broker.new.turn ≡ broker.old.turn }
    ensures later { NoneIsLater broker.old broker.new }
{
    if !was {
        return;
    }
    if !is {
        broker.resume(c);
    }
}
