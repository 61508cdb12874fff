//! Offers a message to its routed queues. A turn (`PlannedTurn`) is planned for each queue, and capacity is reserved; offering the message
//! at the turns can't fail then.

ghost use Rattle.std.specs.Prelude.{
  ◌≡◌,
  ◌==◌,
  ◌+◌,
  ◌<◌,
  ◌≤◌,
  ℕ,
  ◌∷◌,
  ◌++◌,
  [],
  length,
  map,
  cond,
  All,
  IfOk,
  OnOk,
  vec_len,
  vec_capacity,
};
ghost use Rattle.std.specs.List.{list_any};
ghost use Rattle.model.specs.declared.notes.Way.TheVariants.{Publish};
ghost use Rattle.depot.specs.Store.{entries_of};
ghost use Rattle.depot.specs.Turns.{
  turn_at,
  places,
  outcome_at,
  outcome,
  outcomes,
  notes_of_outcomes,
  is_refusal,
  arriving,
  entered_one,
  all_entered,
  room_at,
  LinesHaveRoom,
  IsRoomy,
};

use crate::queues::{Queue, Queues};
use crate::turns::PlannedTurn;
use model::{DeclaredQueue, Message, Note, Way};
use notes::Notes;
use queue::Store;
use std::alloc::{AllocError, Global};

/// Returns a turn of `message` at each queue with an index in `targets`. Fails only if an allocation fails.
pub(crate) fn turns(
    alloc: Global,
    declared: &[DeclaredQueue],
    targets: &[usize],
    message: &Message,
) -> Result<Vec<PlannedTurn>, AllocError>
    requires { All (λ i. i < length declared.now) targets.now }
    ensures { IfOk result (λ turns. turns.items ≡ map (turn_at declared.now message.now) targets.now) }
{
    let mut turns = Vec::new(alloc);
    turns.reserve_exact(targets.len())?;
    for target in targets {
        turns.push_reserved(turn(declared, *target, message)?);
    }
    Ok(turns)
}

/// Returns the turn of `message` at the queue at index `place`. Fails only if an allocation fails.
fn turn(
    declared: &[DeclaredQueue],
    place: usize,
    message: &Message,
) -> Result<PlannedTurn, AllocError>
    requires { place < length declared.now }
    ensures { IfOk result (λ t. t ≡ turn_at declared.now message.now place) }
{
    Ok(PlannedTurn {
        place,
        name: declared[place].name.clone()?,
        message: message.clone()?,
    })
}

/// Reserves capacity for `more` messages in the queue at index `place`.
fn make_room_at(queues: &mut Queues, place: usize, more: usize) -> Result<(), AllocError>
    requires { place < length queues.old }
    ensures same { entries_of queues.new ≡ entries_of queues.old }
    ensures len { length queues.new ≡ length queues.old }
    ensures kept { (k : ℕ) → room_at queues.old k ≤ room_at queues.new k }
    ensures room { OnOk result (more ≤ room_at queues.new place) }
{
    queues.queue_mut(place).reserve(more)
}

/// Reserves capacity for `more` messages in the queue of each of `turns`.
pub(crate) fn make_room(
    queues: &mut Queues,
    turns: &[PlannedTurn],
    more: usize,
) -> Result<(), AllocError>
    requires { All (λ i. i < length queues.old) (places turns.now) }
    ensures same { entries_of queues.new ≡ entries_of queues.old }
    ensures len { length queues.new ≡ length queues.old }
    ensures kept { (place : ℕ) → room_at queues.old place ≤ room_at queues.new place }
    ensures room { OnOk result (LinesHaveRoom queues.new (places turns.now) more) }
{
    for turn in turns {
        make_room_at(queues, turn.place, more)?;
    }
    Ok(())
}

/// Appends the message of `turn` to `queue`, or refuses it if the queue is full, and notes which. Returns whether it is refused.
pub(crate) fn enter(
    declared: &DeclaredQueue,
    queue: &mut Queue,
    turn: PlannedTurn,
    notes: &mut Notes,
) -> bool
    // What the caller knows: there is room for the message and capacity for its note.
    requires room { 0 < queue.old.room }
    requires notes { vec_len notes.old < vec_capacity notes.old }
    // The outcome of the turn decides what is returned and what enters; a refused message uses no room.
    ensures refused { result ≡ is_refusal (outcome_at Publish declared.now queue.old.entries turn) }
    ensures entries { queue.new.entries ≡ queue.old.entries ++ arriving (outcome_at Publish declared.now queue.old.entries turn).message }
    ensures room { queue.new.room + length (arriving (outcome_at Publish declared.now queue.old.entries turn).message) ≡ queue.old.room }
    // One note is appended, within the capacity that there was.
    ensures notes { notes.new.items ≡ notes.old.items ++ (outcome_at Publish declared.now queue.old.entries turn).note ∷ [] }
    ensures notes_len { vec_len notes.new ≡ vec_len notes.old + 1 }
    ensures notes_capacity { vec_capacity notes.new ≡ vec_capacity notes.old }
{
    let PlannedTurn {
        place: _,
        name,
        message,
    } = turn;
    let number = message.number();
    let size = message.content().body.len();
    if queue.is_full(declared.limit, declared.byte_limit, size) {
        notes.push_reserved(Note::Refused {
            number,
            queue: name,
        });
        return true;
    }
    queue.push(message);
    notes.push_reserved(Note::Entered {
        number,
        queue: name,
        way: Way::Publish,
    });
    false
}

/// Offers the message of `turn` to the queue of the turn, as [`enter`] does. Returns whether the message is refused.
fn enter_at(
    declared: &[DeclaredQueue],
    queues: &mut Queues,
    turn: PlannedTurn,
    notes: &mut Notes,
) -> bool
    // What the caller knows: each queue is declared, the turn's is one of them, and there is room for the message and capacity for its note.
    requires len { length queues.old ≡ length declared.now }
    requires within { turn.place < length queues.old }
    requires room { 0 < room_at queues.old turn.place }
    requires notes { vec_len notes.old < vec_capacity notes.old }
    // The outcome of the turn decides what is returned and what enters; only the turn's queue uses room, for one message.
    ensures refused { result ≡ is_refusal (outcome Publish declared.now (entries_of queues.old) turn) }
    ensures entries { entries_of queues.new ≡ entered_one (outcome Publish declared.now (entries_of queues.old) turn) (entries_of queues.old) }
    ensures room { (place : ℕ) → room_at queues.old place ≤ room_at queues.new place + cond (place == turn.place) 1 0 }
    ensures len { length queues.new ≡ length queues.old }
    // One note is appended, within the capacity that there was.
    ensures notes { notes.new.items ≡ notes.old.items ++ (outcome Publish declared.now (entries_of queues.old) turn).note ∷ [] }
    ensures notes_len { vec_len notes.new ≡ vec_len notes.old + 1 }
    ensures notes_capacity { vec_capacity notes.new ≡ vec_capacity notes.old }
{
    let place = turn.place;
    let is_refused = enter(&declared[place], queues.queue_mut(place), turn, notes);
    queues.count_coming(place, is_refused);
    is_refused
}

/// Offers the message at each of `turns`, one after another, as [`enter`] does. Returns whether some queue refuses it.
pub(crate) fn enter_all(
    declared: &[DeclaredQueue],
    queues: &mut Queues,
    turns: Vec<PlannedTurn>,
    notes: &mut Notes,
) -> bool
    // What the caller knows: each queue is declared, the turns' are among them, and there is room for all messages and capacity for their notes.
    requires len { length queues.old ≡ length declared.now }
    requires within { All (λ i. i < length queues.old) (places turns.items) }
    requires room { IsRoomy queues.old (places turns.items) }
    requires notes { vec_len notes.old + vec_len turns ≤ vec_capacity notes.old }
    // Each queue judges a turn as the earlier turns left it; any refusal is reported, and there are as many queues as before.
    ensures refused { result ≡ list_any is_refusal (outcomes Publish declared.now turns.items (entries_of queues.old)) }
    ensures entries { entries_of queues.new ≡ all_entered (outcomes Publish declared.now turns.items (entries_of queues.old)) (entries_of queues.old) }
    ensures len { length queues.new ≡ length queues.old }
    // One note is appended for each turn, in their order, within the capacity that there was.
    ensures notes { notes.new.items ≡ notes.old.items ++ notes_of_outcomes (outcomes Publish declared.now turns.items (entries_of queues.old)) }
    ensures notes_len { vec_len notes.new ≡ vec_len notes.old + vec_len turns }
    ensures notes_capacity { vec_capacity notes.new ≡ vec_capacity notes.old }
{
    let mut is_some_refused = false;
    for turn in turns {
        is_some_refused |= enter_at(declared, queues, turn, notes);
    }
    is_some_refused
}
