//! Calls that retry with the memory of the reserve.
//!
//! The spare storages of the outputs are the reserve, 16 small and 8 large ones, and what is spare beyond it. If an allocation fails, they are freed,
//! and the call is made again. A publish brings a message in: it is performed only while the reserve is whole, and frees only what is spare beyond it.
//! So does reading, once a connection has more unread bytes than its allowance: publishers that keep sending don't take the memory that others need to
//! empty their queues, and what a burst of deliveries left spare is theirs.

ghost use Rattle.std.specs.Prelude.{◌≡◌, ◌≤◌, ◌<◌, ◌+◌, if◌then◌else◌, [], None, IsOk, IfErr, IfOk, OnOk, OnErr, length, true, false};
ghost use Rattle.model.specs.Commands.{heard};
ghost use Rattle.model.specs.Sending.{AreOwn};
ghost use Rattle.model.specs.Step.{Acts};
ghost use Rattle.assembly.specs.Held.{stream_of};
ghost use Rattle.assembly.specs.declared.faults.Fault.TheVariants as fault;
ghost use Rattle.assembly.specs.Onward.{YieldsNext, broken_by};
ghost use Rattle.broker.specs.Turns.{topology_kept, broker_of, AddressesTo};
ghost use Rattle.broker.specs.Waiting.{NobodyIsPutBack, NoneIsLater, ServesSoon};
ghost use Rattle.commands.specs.Judged.{IsAsked};
ghost use Rattle.commands.specs.Picked.{IsPick, DeliversTo};
ghost use Rattle.commands.specs.Steps.{AddressesOwn};
ghost use Rattle.engine.specs.Performing.{AnswersByPhase, IsAskedBy};
ghost use Rattle.engine.specs.Allocating.{brings_message as brings, allowance_after as allowed, room_wanted as wants, KeepsLarge};
ghost use Rattle.outputs.specs.Storages.{AreAtMost, IsReleased, IsWhole, KeepsReserve, room_of, spare_for};
ghost use Rattle.outputs.specs.declared.room.Room.TheVariants as room;

use crate::performing;
use assembly::{Fault, Stream};
use broker::{Broker, Pick, Step};
use model::{Command, Event, Method, User};
use outputs::{Output, Room, Spares};
use session::Session;
use std::alloc::{AllocError, Global};

/// The allowance in bytes of a connection until its first command: a login is shorter.
pub(crate) const FIRST_ALLOWANCE: usize = 4096;

/// The allowance in bytes of a connection that settles messages, which frees memory: the most that two reads of its socket give.
const SETTLING_ALLOWANCE: usize = 131_072;

/// Returns the allowance in bytes of a connection whose last command was `event`: 0 after a publish, [`SETTLING_ALLOWANCE`] after an ack, nack
/// or reject, and otherwise [`FIRST_ALLOWANCE`].
pub(crate) fn allowance_after(event: &Event) -> usize
    ensures { result ≡ allowed event.now }
{
    match event {
        Event::Command {
            content: Some(_),
            ..
        } => 0,
        Event::Command {
            method: Method::BasicAck(_) | Method::BasicNack(_) | Method::BasicReject(_),
            ..
        } => SETTLING_ALLOWANCE,
        _ => FIRST_ALLOWANCE,
    }
}

/// Returns whether `event` is a command with a content, which a publish is.
fn brings_message(event: &Event) -> bool
    ensures { result ≡ brings event.now }
{
    matches!(
        event,
        Event::Command {
            content: Some(_),
            ..
        }
    )
}

/// Makes the reserve whole if `event` is a command with a content. Fails only if an allocation fails, and nothing is spare beyond the reserve then.
pub(crate) fn hold_for(spares: &mut Spares, event: &Event) -> Result<(), AllocError>
    ensures whole { OnOk result (brings event.now ≡ true → IsWhole spares.new) }
    ensures only { OnErr result (brings event.now ≡ true) }
    ensures spare { OnErr result (AreAtMost 16 8 spares.new) }
    ensures other { brings event.now ≡ false → spares.new ≡ spares.old }
{
    if brings_message(event) {
        return make_whole(spares);
    }
    Ok(())
}

/// Makes the reserve whole, if necessary with the memory of what is spare beyond it. If that fails, nothing is spare beyond the reserve.
fn make_whole(spares: &mut Spares) -> Result<(), AllocError>
    ensures whole { OnOk result (IsWhole spares.new) }
    ensures spare { OnErr result (AreAtMost 16 8 spares.new) }
{
    match spares.hold() {
        Err(_) => {
            spares.trim();
            spares.hold()
        }
        held => held,
    }
}

/// Frees spare storages so that `event` can be tried again: for a command with a content what is spare beyond the reserve, otherwise the reserve too.
fn release_for(spares: &mut Spares, event: &Event)
    ensures left { brings event.now ≡ false → IsReleased spares.new }
    ensures spare { AreAtMost 16 8 spares.new }
    ensures keeps { brings event.now ≡ true → KeepsReserve spares.old spares.new }
{
    if brings_message(event) {
        spares.trim();
    } else {
        spares.release();
    }
}

/// Frees the reserve if `is_little`, and otherwise only what is spare beyond it.
fn release_if(spares: &mut Spares, is_little: bool)
    ensures left { is_little ≡ true → IsReleased spares.new }
    ensures spare { AreAtMost 16 8 spares.new }
    ensures keeps { is_little ≡ false → KeepsReserve spares.old spares.new }
{
    if is_little {
        spares.release();
    } else {
        spares.trim();
    }
}

/// Returns whether `unread` and `more` bytes together are at most `allowance`.
fn is_within(unread: usize, more: usize, allowance: usize) -> bool
    ensures within { result ≡ true → unread + more ≤ allowance }
    ensures over { result ≡ false → allowance < unread + more }
{
    match unread.checked_add(more) {
        Some(sum) => sum <= allowance,
        None => false,
    }
}

/// Appends `bytes` to the unread input of `stream`, if necessary with the memory of spare storages. The reserve is freed only if at most
/// `allowance` bytes are unread, `bytes` included. If it fails, `stream` is unchanged.
pub(crate) fn feed(
    spares: &mut Spares,
    stream: &mut Stream,
    bytes: &[u8],
    allowance: usize,
) -> Result<(), AllocError>
    ensures ok { OnOk result (stream_of stream.new ≡ heard (stream_of stream.old) bytes.now) }
    ensures err { OnErr result (stream.new ≡ stream.old) }
    ensures full { OnErr result (stream.old.room < length bytes.now) }
    ensures fault { stream.new.fault ≡ stream.old.fault }
    // The call fails only after all that is spare beyond the reserve was freed, and the reserve too if the unread bytes, the new ones included, are
    // within the allowance. Past the allowance the reserve is left alone.
    ensures last { OnErr result (length (stream_of stream.old).unread + length bytes.now ≤ allowance → IsReleased spares.new) }
    ensures spare { OnErr result (AreAtMost 16 8 spares.new) }
    ensures whole { allowance < length (stream_of stream.old).unread + length bytes.now → KeepsReserve spares.old spares.new }
{
    let is_little = is_within(stream.unread(), bytes.len(), allowance);
    match stream.feed(bytes) {
        Err(_) => {
            release_if(spares, is_little);
            stream.feed(bytes)
        }
        fed => fed,
    }
}

/// Reads the next command of `stream`, if necessary with the memory of spare storages. The reserve is freed only if at most `allowance` bytes are
/// unread.
pub(crate) fn next(
    spares: &mut Spares,
    stream: &mut Stream,
    allowance: usize,
) -> Result<Option<Command>, Fault>
    ensures yields { YieldsNext (stream_of stream.old) result (stream_of stream.new) }
    ensures keeps { stream.new.fault ≡ broken_by result }
    // It fails for memory only after all that is spare beyond the reserve was freed.
    ensures spare { IfErr result (λ e. e ≡ fault.Memory → AreAtMost 16 8 spares.new) }
    ensures whole { allowance < length (stream_of stream.old).unread → KeepsReserve spares.old spares.new }
{
    let is_little = stream.unread() <= allowance;
    match stream.next() {
        Err(Fault::Memory) => {
            release_if(spares, is_little);
            stream.next()
        }
        next => next,
    }
}

/// Returns what `event` needs room for: a content for a get, a publish that may be returned and a delivery, a reply for any other.
pub(crate) fn room_wanted(event: &Event) -> Room
    ensures { result ≡ wants event.now }
{
    match event {
        Event::Command {
            method: Method::BasicGet(_),
            ..
        }
        | Event::Deliver { .. } => Room::Content,
        Event::Command {
            method: Method::BasicPublish(publish),
            ..
        } => room_of_publish(publish.mandatory),
        _ => Room::Reply,
    }
}

/// Returns what a publish needs room for: it is sent back only if it is `mandatory`.
fn room_of_publish(mandatory: bool) -> Room
    ensures { result ≡ (if mandatory then room.Content else room.Reply) }
{
    if mandatory {
        Room::Content
    } else {
        Room::Reply
    }
}

/// Makes room in `output` for what `wanted` says, if necessary with the memory of the reserve. If that fails, the reserve was freed.
pub(crate) fn make_room(
    spares: &mut Spares,
    output: &mut Output,
    wanted: Room,
) -> Result<(), AllocError>
    ensures bytes { output.new.bytes ≡ output.old.bytes }
    ensures ok { OnOk result (room_of wanted ≤ output.new.room) }
    // When it may fail, and what a failure leaves.
    ensures full { OnErr result (output.old.room < room_of wanted) }
    ensures enough { output.old.bytes ≡ [] → 0 < spare_for wanted spares.old → IsOk result }
    ensures err { OnErr result (output.new ≡ output.old) }
    ensures last { OnErr result (IsReleased spares.new) }
    ensures large { KeepsLarge wanted output.old.bytes spares.old spares.new }
{
    match spares.make_room(output, wanted) {
        Err(_) => {
            spares.release();
            spares.make_room(output, wanted)
        }
        made => made,
    }
}

/// Makes the delivery `pick`, if necessary with the memory of the reserve. If that fails, nothing is delivered, and the reserve was freed.
pub(crate) fn pump(
    alloc: Global,
    spares: &mut Spares,
    broker: &mut Broker,
    pick: Pick,
) -> Result<Step, AllocError>
    requires { IsPick (broker_of broker.old) pick }
    // The promise: this delivery, whose send goes to the consumer's connection.
    ensures ok { IfOk result (λ s. DeliversTo (broker_of broker.old) pick s.sends.items s.notes.items (broker_of broker.new)) }
    ensures addressed { IfOk result (λ s. AddressesTo broker.old pick.connection s.sends.items) }
    // The turn is over, no consumer is put back, and those that wait were passed over by few deliveries.
    ensures over { OnOk result (broker.new.turn ≡ None) }
    ensures later { OnOk result (NoneIsLater broker.old broker.new) }
    ensures soon { OnOk result (ServesSoon broker.old pick) }
    // The frame; a failure changes nothing, and comes only after the reserve was freed.
    ensures topology { topology_kept broker.new ≡ topology_kept broker.old }
    ensures err { OnErr result (broker.new ≡ broker.old) }
    ensures last { OnErr result (IsReleased spares.new) }
{
    match broker.pump(alloc, pick) {
        Err(_) => {
            spares.release();
            broker.pump(alloc, pick)
        }
        pumped => pumped,
    }
}

/// Performs `event`, if necessary with the memory of spare storages. If that fails, nothing has changed, and the reserve was freed; for a
/// command with a content only what is spare beyond it.
pub(crate) fn step(
    alloc: Global,
    broker: &mut Broker,
    spares: &mut Spares,
    event: &Event,
) -> Result<Step, AllocError>
    requires asked { IsAsked event.now }
    // The promise: the model's step, whose sends go to the event's connection.
    ensures ok { IfOk result (λ s. Acts (topology_kept broker.old) (broker_of broker.old) event.now s.sends.items s.notes.items (broker_of broker.new)) }
    ensures addressed { IfOk result (λ s. AddressesOwn (broker_of broker.old) event.now s.sends.items) }
    // The frame: the topology and the picked consumer are unchanged, and no consumer is put back.
    ensures topology { topology_kept broker.new ≡ topology_kept broker.old }
    ensures turn { broker.new.turn ≡ broker.old.turn }
    ensures later { OnOk result (NobodyIsPutBack broker.old broker.new) }
    // A failure changes nothing in the broker. A publish leaves the reserve alone, and fails only if nothing is spare beyond it; anything else
    // fails only after it was freed.
    ensures err { OnErr result (broker.new ≡ broker.old) }
    ensures whole { brings event.now ≡ true → KeepsReserve spares.old spares.new }
    ensures last { OnErr result (brings event.now ≡ false → IsReleased spares.new) }
    ensures spare { OnErr result (AreAtMost 16 8 spares.new) }
    ensures kept { brings event.now ≡ false → 3 < spares.new.contents → spares.new ≡ spares.old }
{
    match broker.step(alloc, event) {
        Err(_) => {
            release_for(spares, event);
            broker.step(alloc, event)
        }
        stepped => stepped,
    }
}

/// Answers an event of the connection `c`, which does not run, if necessary with the memory of spare storages. If that fails, nothing has
/// changed, and the reserve was freed; for a command with a content only what is spare beyond it.
pub(crate) fn by_phase(
    c: u64,
    alloc: Global,
    users: &[User],
    broker: &mut Broker,
    session: &mut Session,
    spares: &mut Spares,
    event: &Event,
) -> Result<Step, AllocError>
    requires asked { IsAskedBy c event.now }
    // The promise: what the phase answers, all of it for this connection.
    ensures ok { IfOk result (λ d. AnswersByPhase users.now c broker.old session.old event.now d broker.new session.new) }
    ensures own { IfOk result (λ d. AreOwn c d.sends.items) }
    // A failure changes neither the broker nor the session.
    ensures broker_kept { OnErr result (broker.new ≡ broker.old) }
    ensures session_kept { OnErr result (session.new ≡ session.old) }
    // The frame: the topology and the picked consumer are unchanged, and no consumer is put back.
    ensures topology { topology_kept broker.new ≡ topology_kept broker.old }
    ensures turn { broker.new.turn ≡ broker.old.turn }
    ensures later { OnOk result (NobodyIsPutBack broker.old broker.new) }
    // The reserve: a publish leaves it alone, and fails only if nothing is spare beyond it; anything else fails only after it was freed.
    ensures whole { brings event.now ≡ true → KeepsReserve spares.old spares.new }
    ensures last { OnErr result (brings event.now ≡ false → IsReleased spares.new) }
    ensures spare { OnErr result (AreAtMost 16 8 spares.new) }
    ensures kept { brings event.now ≡ false → 3 < spares.new.contents → spares.new ≡ spares.old }
{
    match performing::by_phase(c, alloc, users, broker, session, event) {
        Err(_) => {
            release_for(spares, event);
            performing::by_phase(c, alloc, users, broker, session, event)
        }
        answered => answered,
    }
}
