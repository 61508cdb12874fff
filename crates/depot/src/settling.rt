//! Acknowledges and requeues deliveries.

ghost use Rattle.std.specs.Prelude.{◌≡◌, ◌+◌, ◌<◌, ◌≤◌, ◌++◌, ◌∷◌, [], true, false, length, map, IfOk, OnOk, OnErr, vec_len, vec_capacity};
ghost use Rattle.model.specs.Topology.{IsWellFormed};
ghost use Rattle.model.specs.Deliveries.{Leaves, left_note};
ghost use Rattle.model.specs.Placed.{is_waiting, waiting, AreWithin};
ghost use Rattle.model.specs.declared.notes.Cause.TheVariants.{Acked};
ghost use Rattle.depot.specs.Store.{entries_of};
ghost use Rattle.depot.specs.Dying.{acked_note, given_at};
ghost use Rattle.notes.specs.Kept.{are_kept};
ghost use Rattle.depot.specs.Settled.{AreReturnedIn, AreSettledIn, AreOf, IsHeldOnce, departure_in, left_at, returned_at, store_of};

use crate::departures::Departure;
use crate::queues::Queues;
use exchange_graph::Topology;
use model::{Cause, ChannelId, Delivery, Note, Text};
use notes::Notes;
use queue::Store;
use std::alloc::{AllocError, Global};

/// Returns the name of the delivery's queue. Fails only if an allocation fails.
pub(crate) fn name_of(topology: &Topology, given: &Delivery) -> Result<Text, AllocError>
    requires { given.now.queue < length topology.now.queues }
    ensures { IfOk result (λ name. name ≡ (departure_in topology.now given.now).queue) }
{
    topology.queue(given.queue).name.clone()
}

/// Appends `given`, with its queue's name, to `departures` if it is unacknowledged. There is capacity for it.
fn add_departure(
    topology: &Topology,
    given: &Delivery,
    departures: &mut Vec<Departure>,
) -> Result<(), AllocError>
    requires within { is_waiting given.now ≡ true → given.now.queue < length topology.now.queues }
    requires room { vec_len departures.old < vec_capacity departures.old }
    // The delivery is appended if it is unacknowledged, and at most one entry is used.
    ensures leaves { OnOk result (is_waiting given.now ≡ true
        → departures.new.items ≡ departures.old.items ++ departure_in topology.now given.now ∷ []) }
    ensures gone_already { OnOk result (is_waiting given.now ≡ false → departures.new.items ≡ departures.old.items) }
    ensures len { vec_len departures.new ≤ vec_len departures.old + 1 }
    ensures capacity { vec_capacity departures.new ≡ vec_capacity departures.old }
{
    if !given.is_waiting() {
        return Ok(());
    }
    let queue = name_of(topology, given)?;
    departures.push_reserved(Departure {
        given: *given,
        queue,
    });
    Ok(())
}

/// Returns the unacknowledged deliveries of `gone`, each with the name of its queue. Fails only if an allocation fails.
fn departures_of(
    alloc: Global,
    topology: &Topology,
    gone: &[Delivery],
) -> Result<Vec<Departure>, AllocError>
    requires { AreWithin topology.now (waiting gone.now) }
    ensures { IfOk result (λ departures. departures.items ≡ map (departure_in topology.now) (waiting gone.now)) }
{
    let mut departures = Vec::new(alloc);
    departures.reserve_exact(gone.len())?;
    for given in gone {
        add_departure(topology, given, &mut departures)?;
    }
    Ok(departures)
}

/// If the message of `given` is still held, removes it from its queue, which is named `queue`, and appends a note. There is capacity for the note.
pub(crate) fn leave(
    queues: &mut Queues,
    id: ChannelId,
    given: &Delivery,
    queue: Text,
    notes: &mut Notes,
)
    requires within { given.now.queue < length queues.old }
    requires room { vec_len notes.old < vec_capacity notes.old }
    // The message leaves, with a note if it was held; at most one note is used.
    ensures entries { entries_of queues.new ≡ left_at id.connection id.number (entries_of queues.old) given.now }
    ensures len { length queues.new ≡ length queues.old }
    ensures notes { notes.new.items ≡ notes.old.items
        ++ left_note Acked queue (given_at id.connection id.number (entries_of queues.old) given.now) }
    ensures notes_len { vec_len notes.new ≤ vec_len notes.old + 1 }
    ensures capacity { vec_capacity notes.new ≡ vec_capacity notes.old }
{
    let holder = given.holder(id);
    let removed = queues.queue_mut(given.queue).remove(&holder, given.arrival);
    if let Some(entry) = removed {
        notes.push_reserved(Note::Left {
            number: entry.message.number(),
            queue,
            cause: Cause::Acked,
        });
    }
}

/// Acknowledges the unacknowledged deliveries of `gone`, with a note for each that is kept: makes all allocations, and then removes their messages one
/// after another. Fails only if an allocation fails; only capacity may have grown then.
fn ack_noted(
    alloc: Global,
    topology: &Topology,
    queues: &mut Queues,
    id: ChannelId,
    gone: &[Delivery],
    notes: &mut Notes,
) -> Result<(), AllocError>
    // What the caller knows of the topology and the deliveries.
    requires formed { IsWellFormed topology.now }
    requires len { length queues.old ≡ length topology.now.queues }
    requires within { AreWithin topology.now (waiting gone.now) }
    requires distinct { IsHeldOnce (store_of topology.now (entries_of queues.old) 0) }
    // The promise; a failure changes neither the queues nor the notes.
    ensures ok { OnOk result (AreSettledIn (Leaves Acked) topology.now id (waiting gone.now)
        queues.old queues.new notes.old.items notes.new.items) }
    ensures len { length queues.new ≡ length queues.old }
    ensures queues { OnErr result (entries_of queues.new ≡ entries_of queues.old) }
    ensures notes { OnErr result (notes.new.items ≡ notes.old.items) }
{
    let departures = departures_of(alloc, topology, gone)?;
    notes.reserve_exact(departures.len())?;
    for departure in departures {
        let Departure { given, queue } = departure;
        leave(queues, id, &given, queue, notes);
    }
    Ok(())
}

/// If the message of `given` is still held, removes it from its queue, which is named `queue`, and appends a note that nobody keeps. There is capacity
/// for it. Never allocates.
fn leave_unnoted(
    queues: &mut Queues,
    id: ChannelId,
    given: &Delivery,
    queue: &Text,
    notes: &mut Notes,
)
    requires within { given.now.queue < length queues.old }
    requires unkept { are_kept notes.old ≡ false }
    requires room { vec_len notes.old < vec_capacity notes.old }
    // The message leaves, with a note if it was held; at most one note is used.
    ensures entries { entries_of queues.new ≡ left_at id.connection id.number (entries_of queues.old) given.now }
    ensures len { length queues.new ≡ length queues.old }
    ensures notes { notes.new.items ≡ notes.old.items
        ++ left_note Acked queue.now (given_at id.connection id.number (entries_of queues.old) given.now) }
    ensures notes_len { vec_len notes.new ≤ vec_len notes.old + 1 }
    ensures capacity { vec_capacity notes.new ≡ vec_capacity notes.old }
    ensures unkept { are_kept notes.new ≡ false }
{
    let holder = given.holder(id);
    let removed = queues.queue_mut(given.queue).remove(&holder, given.arrival);
    if let Some(entry) = removed {
        notes.push_left(entry.message.number(), queue, Cause::Acked);
    }
}

/// Removes the message of `given`, as [`leave_unnoted`] does, if this delivery is unacknowledged.
fn leave_waiting(
    topology: &Topology,
    queues: &mut Queues,
    id: ChannelId,
    given: &Delivery,
    notes: &mut Notes,
)
    requires len { length queues.old ≡ length topology.now.queues }
    requires within { is_waiting given.now ≡ true → given.now.queue < length queues.old }
    requires unkept { are_kept notes.old ≡ false }
    requires room { vec_len notes.old < vec_capacity notes.old }
    // The message leaves if the delivery is unacknowledged, with a note if it was held; at most one note is used.
    ensures leaves { is_waiting given.now ≡ true → entries_of queues.new ≡ left_at id.connection id.number (entries_of queues.old) given.now }
    ensures gone_already { is_waiting given.now ≡ false → entries_of queues.new ≡ entries_of queues.old }
    ensures noted { is_waiting given.now ≡ true → notes.new.items ≡ notes.old.items ++ acked_note topology.now id (entries_of queues.old) given.now }
    ensures unnoted { is_waiting given.now ≡ false → notes.new.items ≡ notes.old.items }
    ensures len { length queues.new ≡ length queues.old }
    ensures notes_len { vec_len notes.new ≤ vec_len notes.old + 1 }
    ensures capacity { vec_capacity notes.new ≡ vec_capacity notes.old }
    ensures unkept { are_kept notes.new ≡ false }
{
    if given.is_waiting() {
        let queue = &topology.queue(given.queue).name;
        leave_unnoted(queues, id, given, queue, notes);
    }
}

/// Acknowledges the unacknowledged deliveries of `gone` as [`ack_noted`] does, with notes that nobody keeps: what it allocates doesn't grow with their
/// number. Fails only if the list of notes can't be begun; only its capacity may have grown then.
fn ack_unnoted(
    topology: &Topology,
    queues: &mut Queues,
    id: ChannelId,
    gone: &[Delivery],
    notes: &mut Notes,
) -> Result<(), AllocError>
    // What the caller knows of the topology, the deliveries and the notes.
    requires formed { IsWellFormed topology.now }
    requires len { length queues.old ≡ length topology.now.queues }
    requires within { AreWithin topology.now (waiting gone.now) }
    requires distinct { IsHeldOnce (store_of topology.now (entries_of queues.old) 0) }
    requires unkept { are_kept notes.old ≡ false }
    // The promise; a failure changes neither the queues nor the notes.
    ensures ok { OnOk result (AreSettledIn (Leaves Acked) topology.now id (waiting gone.now)
        queues.old queues.new notes.old.items notes.new.items) }
    ensures len { length queues.new ≡ length queues.old }
    ensures queues { OnErr result (entries_of queues.new ≡ entries_of queues.old) }
    ensures notes { OnErr result (notes.new.items ≡ notes.old.items) }
{
    notes.reserve_exact(gone.len())?;
    for given in gone {
        leave_waiting(topology, queues, id, given, notes);
    }
    Ok(())
}

/// Acknowledges the unacknowledged deliveries of `gone`: their messages leave their queues one after another. What it allocates grows with their number
/// only if the notes are kept. Fails only if an allocation fails; only capacity may have grown then.
pub(crate) fn ack_all(
    alloc: Global,
    topology: &Topology,
    queues: &mut Queues,
    id: ChannelId,
    gone: &[Delivery],
    notes: &mut Notes,
) -> Result<(), AllocError>
    // What the caller knows of the topology and the deliveries.
    requires formed { IsWellFormed topology.now }
    requires len { length queues.old ≡ length topology.now.queues }
    requires within { AreWithin topology.now (waiting gone.now) }
    requires distinct { IsHeldOnce (store_of topology.now (entries_of queues.old) 0) }
    // The promise; a failure changes neither the queues nor the notes.
    ensures ok { OnOk result (AreSettledIn (Leaves Acked) topology.now id (waiting gone.now)
        queues.old queues.new notes.old.items notes.new.items) }
    ensures len { length queues.new ≡ length queues.old }
    ensures queues { OnErr result (entries_of queues.new ≡ entries_of queues.old) }
    ensures notes { OnErr result (notes.new.items ≡ notes.old.items) }
{
    if notes.are_kept() {
        ack_noted(alloc, topology, queues, id, gone, notes)
    } else {
        ack_unnoted(topology, queues, id, gone, notes)
    }
}

/// Requeues the message of `given` if this delivery is unacknowledged: it is ready again in its place, marked redelivered.
fn put_back(queues: &mut Queues, id: ChannelId, given: &Delivery)
    requires { is_waiting given.now ≡ true → given.now.queue < length queues.old }
    ensures returned { is_waiting given.now ≡ true
        → entries_of queues.new ≡ returned_at id.connection id.number (entries_of queues.old) given.now }
    ensures gone_already { is_waiting given.now ≡ false → entries_of queues.new ≡ entries_of queues.old }
    ensures len { length queues.new ≡ length queues.old }
{
    if given.is_waiting() {
        let holder = given.holder(id);
        queues
            .queue_mut(given.queue)
            .release(&holder, given.arrival);
    }
}

/// Requeues the unacknowledged deliveries of `gone`: each message is ready again in its place, marked redelivered.
pub(crate) fn requeue_in(queues: &mut Queues, id: ChannelId, gone: &[Delivery])
    requires { AreOf (length queues.old) (waiting gone.now) }
    ensures settled { AreReturnedIn id (waiting gone.now) queues.old queues.new }
    ensures len { length queues.new ≡ length queues.old }
{
    for given in gone {
        put_back(queues, id, given);
    }
}
