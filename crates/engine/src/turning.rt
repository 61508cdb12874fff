//! One turn of one connection.

ghost use Rattle.std.specs.Prelude.{◌≡◌, ◌≤◌, ◌<◌, ◌++◌, [], length, true, false, IfOk, IsOk, OnOk, OnErr, IfSome, IsSome};
ghost use Rattle.std.specs.List.{AllByRecursion};
ghost use Rattle.model.specs.Arrivals.{IsSaid, is_ended, is_past_bound, under_session};
ghost use Rattle.model.specs.Phases.{is_running as runs};
ghost use Rattle.model.specs.Sending.{AreCarried, AreOwn};
ghost use Rattle.model.specs.Spelling.{receiver, spelling, IsSpelled};
ghost use Rattle.broker.specs.Turns.{topology_kept, broker_of};
ghost use Rattle.broker.specs.Waiting.{NoneIsLater};
ghost use Rattle.assembly.specs.Held.{stream_of};
ghost use Rattle.engine.specs.Reading.{IsKeptEvent, HasMore, kept_of};
ghost use Rattle.engine.specs.Performing.{IsAskedBy, PausesOr, rules_in};
ghost use Rattle.engine.specs.Turning.{has_performed as performs, Performed, DidNext, ConnectionStays, ConnectionWaits, MayTurn, OnIdle, TakesTurn};
ghost use Rattle.engine.specs.Allocating.{brings_message as brings, allowance_after, KeepsLarge, KeepsLargeFor};
ghost use Rattle.outputs.specs.Storages.{AreAtMost, IsWhole, room_of, spare_for};
ghost use Rattle.engine.specs.World.{wire_in};
ghost use Rattle.engine.specs.Waiting.{TurnLeaves};
ghost use Rattle.outputs.specs.Waiting.{HoldsNone};

use crate::connection::{BOUND, Connection};
use crate::performing::{pause_if, perform};
use crate::reading::{forget, forget_fault, read_next};
use crate::reserve;
use assembly::Stream;
use broker::Broker;
use model::{Event, Phase, Send, User};
use notes::Notes;
use outputs::{Output, Room, Scratch, Spares, put_sends};
use session::Session;
use std::alloc::{AllocError, Global};

/// What a turn did.
#[derive(Drop)]
pub enum Turn {
    /// Performed the next command, or the stream's fault, with these notes.
    Did(Notes),
    /// Found no whole command and no fault.
    Idle,
    /// Did nothing, since the output holds 1,048,576 bytes or more.
    Paused,
    /// Did nothing, since the connection is over or gone.
    Over,
}

/// Returns whether a turn performed something.
pub(crate) fn has_performed(turn: &Result<Turn, AllocError>) -> bool
    ensures { result ≡ performs turn.now }
{
    matches!(turn, Ok(Turn::Did(_)))
}

/// Appends `sends`, all that one event sends to connection `c`, to its output, which has capacity for them and is below the bound. Pauses `c` at
/// the broker if the output is past the bound then.
pub(crate) fn put_out(
    c: u64,
    broker: &mut Broker,
    scratch: &mut Scratch,
    output: &mut Output,
    max: u32,
    sends: &[Send],
)
    // What the caller knows: the sends are this connection's, and there is capacity for them.
    requires own { AreOwn c sends.now }
    requires max { 4096 ≤ max }
    requires room { length (spelling max sends.now) ≤ output.old.room }
    // The promise: their frames are appended.
    ensures bytes { output.new.bytes ≡ output.old.bytes ++ spelling max sends.now }
    ensures spelled { AllByRecursion (IsSpelled max) sends.now }
    ensures own { AllByRecursion (λ s. receiver s ≡ c) sends.now }
    // The connection is paused if its output is past the bound, and nothing else of the broker changes.
    ensures pauses { PausesOr (topology_kept broker.old) c false (is_past_bound output.new.bytes) (broker_of broker.old) (broker_of broker.new) }
    ensures topology { topology_kept broker.new ≡ topology_kept broker.old }
    ensures turn { broker.new.turn ≡ broker.old.turn }
    ensures later { NoneIsLater broker.old broker.new }
{
    put_sends(c, output, scratch, max, sends);
    let is_past = output.bytes().len() >= BOUND;
    pause_if(broker, c, is_past);
}

/// Performs the pending event of `connection`, if any, and appends its replies to the output. If an allocation fails a command stays pending, so
/// the next turn tries it again, and an empty output holds no storage.
fn do_next(
    alloc: Global,
    users: &[User],
    broker: &mut Broker,
    scratch: &mut Scratch,
    spares: &mut Spares,
    connection: &mut Connection,
) -> Result<Turn, AllocError>
    requires next { IfSome connection.old.kept (λ e. IsAskedBy connection.old.number e × IsSaid e) }
    requires carried { AreCarried (broker_of broker.old) }
    // The promise: the pending event is performed.
    ensures ok { IfOk result (λ t. DidNext (rules_in broker.old users.now) broker.old connection.old connection.old.kept t broker.new connection.new) }
    // A failure needs a pending event, and changes nothing.
    ensures wants { OnErr result (IsSome connection.old.kept) }
    ensures broker_kept { OnErr result (broker.new ≡ broker.old) }
    ensures connection_kept { OnErr result (ConnectionStays connection.old connection.new) }
    // The frame.
    ensures topology { topology_kept broker.new ≡ topology_kept broker.old }
    ensures turn { broker.new.turn ≡ broker.old.turn }
    // A publish leaves the reserve whole, and fails only if at most one storage of each size is spare beyond it. Any other event fails only after the
    // reserve was freed, and takes no large storage for a reply.
    ensures whole { OnOk result (IfSome connection.old.kept (λ e. brings e ≡ true → IsWhole spares.new)) }
    ensures after { OnOk result (IfSome connection.old.kept (λ e. connection.new.allowance ≡ allowance_after e)) }
    ensures last { OnErr result (IfSome connection.old.kept (λ e. brings e ≡ false → AreAtMost 9 3 spares.new)) }
    ensures spare { OnErr result (AreAtMost 17 9 spares.new) }
    ensures large { OnOk result (IfSome connection.old.kept (λ e. KeepsLargeFor e connection.old.output.bytes spares.old spares.new)) }
{
    let Some(event) = &connection.kept else {
        spares.take_back(&mut connection.output);
        return Ok(Turn::Idle);
    };
    let wanted = reserve::room_wanted(event);
    if let Err(error) = make_room(spares, &mut connection.output, wanted) {
        forget_fault(&mut connection.kept);
        return Err(error);
    }
    let number = connection.number;
    let max = connection.session.frame_max();
    let allowance = reserve::allowance_after(event);
    match perform(
        number,
        alloc,
        users,
        broker,
        &mut connection.session,
        spares,
        event,
    ) {
        Ok(step) => {
            put_out(
                number,
                broker,
                scratch,
                &mut connection.output,
                max,
                &step.sends,
            );
            forget(&mut connection.kept);
            follow(&mut connection.stream, &connection.session);
            connection.allowance = allowance;
            Ok(Turn::Did(step.notes))
        }
        Err(error) => {
            forget_fault(&mut connection.kept);
            spares.take_back(&mut connection.output);
            Err(error)
        }
    }
}

/// Sets the stream's frame length, and whether it keeps contents, as `session` requires.
fn follow(stream: &mut Stream, session: &Session)
    ensures { stream.old.fault ≡ None → stream_of stream.new ≡ under_session session.now (stream_of stream.old) }
{
    stream.set_max(session.frame_max());
    stream.set_running(is_running(session.phase()));
}

/// Returns whether a connection in `phase` is running.
fn is_running(phase: Phase) -> bool
    ensures { result ≡ runs phase }
{
    matches!(phase, Phase::Running)
}

/// Makes room in `output` for what `wanted` says. If that fails an empty output holds no storage.
pub(crate) fn make_room(
    spares: &mut Spares,
    output: &mut Output,
    wanted: Room,
) -> Result<(), AllocError>
    // The bytes stay, and there is room.
    ensures bytes { output.new.bytes ≡ output.old.bytes }
    ensures ok { OnOk result (room_of wanted ≤ output.new.room) }
    // When it may fail, and what a failure leaves.
    ensures full { OnErr result (output.old.room < room_of wanted) }
    ensures enough { output.old.bytes ≡ [] → 0 < spare_for wanted spares.old → IsOk result }
    ensures refused { OnErr result (HoldsNone output.new) }
    ensures last { OnErr result (AreAtMost 9 3 spares.new) }
    ensures large { KeepsLarge wanted output.old.bytes spares.old spares.new }
{
    match reserve::make_room(spares, output, wanted) {
        Ok(()) => Ok(()),
        Err(error) => {
            spares.take_back(output);
            Err(error)
        }
    }
}

/// Performs one turn of `connection`. Reserves output only if there is something to perform. If an allocation fails the same event comes next,
/// and an empty output holds no storage.
pub(crate) fn turn_connection(
    alloc: Global,
    users: &[User],
    broker: &mut Broker,
    scratch: &mut Scratch,
    spares: &mut Spares,
    connection: &mut Connection,
) -> Result<Turn, AllocError>
    // What the caller knows of the connection.
    requires kept { IsKeptEvent connection.old.number connection.old.kept connection.old.stream.fault }
    requires carried { AreCarried (broker_of broker.old) }
    // The promise, for each result; a failure performs nothing, and comes only for a connection that is awake and has something to perform.
    ensures ok { IfOk result (λ t. TakesTurn users.now broker.old connection.old t broker.new connection.new) }
    ensures err { OnErr result (ConnectionWaits (broker_of broker.old) connection.old (broker_of broker.new) connection.new) }
    ensures awake { OnErr result (MayTurn connection.old) }
    ensures more { OnErr result (HasMore (kept_of connection.old.kept) (stream_of connection.old.stream)) }
    // The storage of an empty output is freed.
    ensures idle { IfOk result (λ t. OnIdle t (HoldsNone connection.new.output)) }
    ensures refused { OnErr result (HoldsNone connection.new.output) }
    // It fails only if at most one spare storage of each size is more than the reserve has.
    ensures spare { OnErr result (AreAtMost 17 9 spares.new) }
    // The frame, and the order of consumers that wait.
    ensures kept { IsKeptEvent connection.new.number connection.new.kept connection.new.stream.fault }
    ensures number { connection.new.number ≡ connection.old.number }
    ensures topology { topology_kept broker.new ≡ topology_kept broker.old }
    ensures turns { IfOk result (λ t. TurnLeaves connection.old.number (wire_in false connection.old) broker.old t broker.new) }
    ensures broker_kept { OnErr result (broker.new ≡ broker.old) }
{
    if connection.session.is_over() {
        return Ok(Turn::Over);
    }
    if connection.output.bytes().len() >= BOUND {
        return Ok(Turn::Paused);
    }
    match read_next(
        connection.number,
        spares,
        &mut connection.stream,
        connection.allowance,
        &mut connection.kept,
    ) {
        Ok(()) => do_next(alloc, users, broker, scratch, spares, connection),
        Err(error) => {
            spares.take_back(&mut connection.output);
            Err(error)
        }
    }
}
