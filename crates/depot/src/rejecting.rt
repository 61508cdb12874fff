//! A rejection: it is planned which dead letters enter which queues, capacity is reserved for these, and then all is performed, which
//! can't fail.

ghost use Rattle.std.specs.Prelude.{◌≡◌, ◌+◌, ◌<◌, ◌≤◌, ℕ, ◌∷◌, [], length, All, true, false, IfOk, OnOk, OnErr, vec_len, vec_capacity};
ghost use Rattle.model.specs.Routing.{key_after};
ghost use Rattle.model.specs.Placed.{is_waiting, waiting, AreWithin};
ghost use Rattle.depot.specs.Store.{entries_of};
ghost use Rattle.depot.specs.Settled.{AreOf, left_at};
ghost use Rattle.depot.specs.Turns.{room_at, times, IsRoomy, GainsNone, MakesAtMost};
ghost use Rattle.depot.specs.Dying.{arriving_at, arrived, all_left, so_far, EnterBelow, Extends, IsLetterAt, IsForeseen, Rejects};
ghost use Rattle.depot.specs.Dying.{Foresees, ForeseesLetters, ForeseesWaiting};

use crate::arrivals::Arrival;
use crate::markers::Marker;
use crate::plans::{Letter, Plan};
use crate::promising::make_rooms;
use crate::queues::Queues;
use crate::tallies::count;
use exchange_graph::Router;
use model::{Cause, ChannelId, DeclaredQueue, Delivery, Message, Note, Text, Way};
use notes::Notes;
use queue::Store;
use std::alloc::{AllocError, Global};

/// Returns the key of a dead letter: `fixed`, the key that the queue sets for dead letters, if any, otherwise `key`, the message's own. Fails only
/// if an allocation fails.
fn key_of(fixed: &Option<Text>, key: &Text) -> Result<Text, AllocError>
    ensures { IfOk result (λ k. k ≡ key_after fixed.now key.now) }
{
    match fixed {
        Some(fixed) => fixed.clone(),
        None => key.clone(),
    }
}

/// Plans the arrival of `letter` at the queue at index `place`, after all arrivals planned before: it enters or is refused. Appends the note. If an
/// allocation fails, neither is there; only the plan's tallies may have changed.
fn plan_turn(
    declared: &[DeclaredQueue],
    queues: &Queues,
    place: usize,
    letter: &Message,
    plan: &mut Plan,
    notes: &mut Notes,
) -> Result<(), AllocError>
    // What the caller knows: each queue is declared, `place` is one of them, and there is capacity for the note.
    requires len { length queues.now ≡ length declared.now }
    requires within { place < length queues.now }
    requires room { vec_len notes.old < vec_capacity notes.old }
    ensures ok { OnOk result (Foresees declared.now (entries_of queues.now) letter.now (place ∷ [])
        (so_far plan.old notes.old) (so_far plan.new notes.new)) }
    // Also after a failure: planned letters still enter queues that exist, and at most one note is appended, within the capacity that there was.
    ensures within { (n : ℕ) → place < n → EnterBelow n plan.old.arrivals.items → EnterBelow n plan.new.arrivals.items }
    ensures notes { Extends notes.old.items notes.new.items }
    ensures notes_len { vec_len notes.new ≤ vec_len notes.old + 1 }
    ensures notes_capacity { vec_capacity notes.new ≡ vec_capacity notes.old }
{
    let queue = declared[place].name.clone()?;
    let number = letter.number();
    let size = letter.content().body.len();
    if count(declared, queues, &mut plan.tallies, place, size)? {
        notes.push_reserved(Note::Refused { number, queue });
        return Ok(());
    }
    let message = letter.clone()?;
    plan.arrivals.push(Arrival { place, message })?;
    notes.push_reserved(Note::Entered {
        number,
        queue,
        way: Way::Dead,
    });
    Ok(())
}

/// Plans that `letter` comes to each queue with an index in `targets`, as [`plan_turn`] does, and appends the notes. If an allocation fails,
/// something may be planned.
fn plan_turns(
    declared: &[DeclaredQueue],
    queues: &Queues,
    targets: &[usize],
    letter: &Message,
    plan: &mut Plan,
    notes: &mut Notes,
) -> Result<(), AllocError>
    // What the caller knows: each queue is declared, `targets` are among them, and there is capacity for a note each.
    requires len { length queues.now ≡ length declared.now }
    requires within { All (λ i. i < length queues.now) targets.now }
    requires room { vec_len notes.old + length targets.now ≤ vec_capacity notes.old }
    ensures ok { OnOk result (Foresees declared.now (entries_of queues.now) letter.now targets.now
        (so_far plan.old notes.old) (so_far plan.new notes.new)) }
    // Also after a failure: planned letters still enter queues that exist, and notes are only appended.
    ensures within { EnterBelow (length queues.now) plan.old.arrivals.items → EnterBelow (length queues.now) plan.new.arrivals.items }
    ensures notes { Extends notes.old.items notes.new.items }
{
    for target in targets {
        plan_turn(declared, queues, *target, letter, plan, notes)?;
    }
    Ok(())
}

/// Returns the dead letter of a message that dies in the queue at index `place`, or `None` if the queue has no dead-letter exchange. Fails
/// only if an allocation fails.
fn letter_of(
    alloc: Global,
    router: &mut Router,
    marker: &mut Marker,
    place: usize,
    message: &Message,
) -> Result<Option<Letter>, AllocError>
    requires { place < length router.old.queues }
    ensures letter { IfOk result (IsLetterAt router.old place message.now) }
    ensures same { router.new ≡ router.old }
{
    let declared = router.topology().queue(place);
    let Some(exchange) = &declared.dead_letter_exchange else {
        return Ok(None);
    };
    let exchange = exchange.clone()?;
    let key = key_of(&declared.dead_letter_key, message.key())?;
    let content = marker.marked(alloc, &declared.name, message.exchange(), message.content())?;
    let message = message.dead_letter(alloc, &exchange, &key, &content)?;
    let route = router.route(alloc, &exchange, &key)?;
    Ok(Some(Letter { message, route }))
}

/// Plans the dead letter of a message that dies in the queue at index `place`, if there is one.
fn plan_letter(
    alloc: Global,
    router: &mut Router,
    queues: &Queues,
    place: usize,
    message: &Message,
    plan: &mut Plan,
    notes: &mut Notes,
) -> Result<(), AllocError>
    // What the caller knows: the queues are the topology's, and `place` is one of them.
    requires len { length queues.now ≡ length router.old.queues }
    requires within { place < length router.old.queues }
    ensures ok { OnOk result (ForeseesLetters router.old place message.now (entries_of queues.now)
        (so_far plan.old notes.old) (so_far plan.new notes.new)) }
    // Also after a failure: planned letters still enter queues that exist, notes are only appended, and the topology is unchanged.
    ensures within { EnterBelow (length queues.now) plan.old.arrivals.items → EnterBelow (length queues.now) plan.new.arrivals.items }
    ensures notes { Extends notes.old.items notes.new.items }
    ensures same { router.new ≡ router.old }
{
    let Some(letter) = letter_of(alloc, router, &mut plan.marker, place, message)? else {
        return Ok(());
    };
    let targets = &letter.route.targets;
    notes.reserve(targets.len())?;
    plan_turns(
        router.topology().queues(),
        queues,
        targets,
        &letter.message,
        plan,
        notes,
    )
}

/// Plans the death of the message of `given`, if this delivery is unacknowledged and the message is still held.
fn plan_one(
    alloc: Global,
    router: &mut Router,
    queues: &Queues,
    id: ChannelId,
    given: &Delivery,
    plan: &mut Plan,
    notes: &mut Notes,
) -> Result<(), AllocError>
    // What the caller knows: the queues are the topology's, and an unacknowledged delivery is from one of them.
    requires len { length queues.now ≡ length router.old.queues }
    requires within { is_waiting given.now ≡ true → given.now.queue < length router.old.queues }
    // The death is planned if the delivery is unacknowledged; otherwise nothing is planned and nothing noted.
    ensures foreseen { OnOk result (ForeseesWaiting router.old id given.now (entries_of queues.now)
        (so_far plan.old notes.old) (so_far plan.new notes.new)) }
    ensures gone_already { OnOk result (is_waiting given.now ≡ false → so_far plan.new notes.new ≡ so_far plan.old notes.old) }
    // Also after a failure: planned letters still enter queues that exist, notes are only appended, and the topology is unchanged.
    ensures within { EnterBelow (length queues.now) plan.old.arrivals.items → EnterBelow (length queues.now) plan.new.arrivals.items }
    ensures notes { Extends notes.old.items notes.new.items }
    ensures same { router.new ≡ router.old }
{
    if !given.is_waiting() {
        return Ok(());
    }
    let place = given.queue;
    let holder = given.holder(id);
    let Some(entry) = queues.queue(place).held(&holder, given.arrival) else {
        return Ok(());
    };
    let queue = router.topology().queue(place).name.clone()?;
    notes.reserve(1)?;
    notes.push_reserved(Note::Left {
        number: entry.message.number(),
        queue,
        cause: Cause::Rejected,
    });
    plan_letter(alloc, router, queues, place, &entry.message, plan, notes)
}

/// Plans the deaths of all messages of `gone` that wait and are still held. Returns the dead letters that enter queues. Appends all notes; if
/// an allocation fails, some.
fn plan_all(
    alloc: Global,
    router: &mut Router,
    queues: &Queues,
    id: ChannelId,
    gone: &[Delivery],
    notes: &mut Notes,
) -> Result<Vec<Arrival>, AllocError>
    // What the caller knows: the queues are the topology's, and the unacknowledged deliveries are from them.
    requires len { length queues.now ≡ length router.old.queues }
    requires within { AreWithin router.old (waiting gone.now) }
    // The returned letters are those that the deaths bring, each to a queue that exists.
    ensures foreseen { IfOk result (λ came.
        IsForeseen router.old id (waiting gone.now) (entries_of queues.now) came.items notes.old.items notes.new.items) }
    ensures within { IfOk result (λ came. EnterBelow (length queues.now) came.items) }
    // The frame, also after a failure: notes are only appended, and the topology is unchanged.
    ensures notes { Extends notes.old.items notes.new.items }
    ensures same { router.new ≡ router.old }
{
    let mut plan = Plan::new(alloc);
    for given in gone {
        plan_one(alloc, router, queues, id, given, &mut plan, notes)?;
    }
    let Plan { arrivals, .. } = plan;
    Ok(arrivals)
}

/// Removes the delivery's message from its queue, if it waits.
fn leave(queues: &mut Queues, id: ChannelId, given: &Delivery)
    requires { is_waiting given.now ≡ true → given.now.queue < length queues.old }
    ensures left { is_waiting given.now ≡ true → entries_of queues.new ≡ left_at id.connection id.number (entries_of queues.old) given.now }
    ensures gone_already { is_waiting given.now ≡ false → entries_of queues.new ≡ entries_of queues.old }
    ensures len { length queues.new ≡ length queues.old }
    ensures room { (place : ℕ) → room_at queues.new place ≡ room_at queues.old place }
{
    if given.is_waiting() {
        let holder = given.holder(id);
        queues.queue_mut(given.queue).remove(&holder, given.arrival);
    }
}

/// Removes the messages of those deliveries of `gone` that wait.
fn leave_all(queues: &mut Queues, id: ChannelId, gone: &[Delivery])
    requires { AreOf (length queues.old) (waiting gone.now) }
    ensures left { entries_of queues.new ≡ all_left id.connection id.number (waiting gone.now) (entries_of queues.old) }
    ensures len { length queues.new ≡ length queues.old }
    ensures room { (place : ℕ) → room_at queues.new place ≡ room_at queues.old place }
{
    for given in gone {
        leave(queues, id, given);
    }
}

/// Appends the dead letter to its queue.
fn arrive(queues: &mut Queues, arrival: Arrival)
    requires within { arrival.place < length queues.old }
    requires room { 0 < room_at queues.old arrival.place }
    ensures arrived { entries_of queues.new ≡ arrived (arrival ∷ []) (entries_of queues.old) }
    ensures len { length queues.new ≡ length queues.old }
    ensures room { (place : ℕ) → room_at queues.new place + times place (arrival.place ∷ []) ≡ room_at queues.old place }
{
    let Arrival { place, message } = arrival;
    queues.queue_mut(place).push(message);
}

/// Appends each of `arrivals` to its queue, one after another. There is room for all of them.
fn arrive_all(queues: &mut Queues, arrivals: Vec<Arrival>)
    requires within { EnterBelow (length queues.old) arrivals.items }
    requires room { IsRoomy queues.old (arriving_at arrivals.items) }
    ensures arrived { entries_of queues.new ≡ arrived arrivals.items (entries_of queues.old) }
    ensures len { length queues.new ≡ length queues.old }
    ensures room { (place : ℕ) → room_at queues.new place + times place (arriving_at arrivals.items) ≡ room_at queues.old place }
{
    for arrival in arrivals {
        arrive(queues, arrival);
    }
}

/// Plans the rejection and reserves room for its dead letters, which are returned. Appends all notes; if an allocation fails, some.
fn prepare(
    alloc: Global,
    router: &mut Router,
    queues: &mut Queues,
    id: ChannelId,
    gone: &[Delivery],
    notes: &mut Notes,
) -> Result<Vec<Arrival>, AllocError>
    // What the caller knows: the queues are the topology's, and the unacknowledged deliveries are from them.
    requires len { length queues.old ≡ length router.old.queues }
    requires within { AreWithin router.old (waiting gone.now) }
    // The returned letters are those that the deaths bring, each to a queue that exists.
    ensures foreseen { IfOk result (λ came.
        IsForeseen router.old id (waiting gone.now) (entries_of queues.old) came.items notes.old.items notes.new.items) }
    ensures within { IfOk result (λ came. EnterBelow (length queues.old) came.items) }
    // On success each queue has room for its letters, and at most that much more than before; after a failure none has gained any.
    ensures room { IfOk result (λ came. IsRoomy queues.new (arriving_at came.items)) }
    ensures few { IfOk result (λ came. MakesAtMost queues.old queues.new (λ k. times k (arriving_at came.items))) }
    ensures gains { OnErr result (GainsNone queues.old queues.new) }
    // The frame, also after a failure: no entry changes, notes are only appended, and the topology is unchanged.
    ensures queues { entries_of queues.new ≡ entries_of queues.old }
    ensures len { length queues.new ≡ length queues.old }
    ensures notes { Extends notes.old.items notes.new.items }
    ensures same { router.new ≡ router.old }
{
    let arrivals = plan_all(alloc, router, queues, id, gone, notes)?;
    make_rooms(queues, &arrivals)?;
    Ok(arrivals)
}

/// Rejects the unacknowledged deliveries of `gone`: their messages leave their queues one after another. Fails only if an
/// allocation fails; only capacity may have changed then.
pub(crate) fn reject_in(
    alloc: Global,
    router: &mut Router,
    queues: &mut Queues,
    id: ChannelId,
    gone: &[Delivery],
    notes: &mut Notes,
) -> Result<(), AllocError>
    requires len { length queues.old ≡ length router.old.queues }
    requires within { AreWithin router.old (waiting gone.now) }
    // The promise.
    ensures ok { OnOk result
        (Rejects router.old id (waiting gone.now) (entries_of queues.old) (entries_of queues.new) notes.old.items notes.new.items) }
    ensures same { router.new ≡ router.old }
    ensures len { length queues.new ≡ length queues.old }
    ensures queues { OnErr result (entries_of queues.new ≡ entries_of queues.old) }
    ensures notes { OnErr result (notes.new.items ≡ notes.old.items) }
    // no room is left over
    ensures gains { GainsNone queues.old queues.new }
{
    let len = notes.len();
    match prepare(alloc, router, queues, id, gone, notes) {
        Ok(arrivals) => {
            leave_all(queues, id, gone);
            arrive_all(queues, arrivals);
            Ok(())
        }
        Err(_) => {
            notes.truncate(len);
            Err(AllocError)
        }
    }
}
