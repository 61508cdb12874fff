//! Work on the lines of all queues.
//!
//! Each queue has a bit that is 1 if a consumer in its line is awake. A pick goes round-robin over the queues that have a ready message and whose
//! bit is 1. If it finds no consumer that can take a message it leaves none awake there and clears the bit; the next consumer that is woken or made
//! there sets it. So a queue that lacks one of the two costs nothing.

ghost use Rattle.std.specs.Prelude.{◌≡◌, ◌<◌, ◌≤◌, ◌*◌, ℕ, None, IfSome, IfOk, filter, length};
ghost use Rattle.marks.specs.Sets.{bit_of};
ghost use Rattle.depot.specs.Store.{HasReady};
ghost use Rattle.commands.specs.State.{topology_kept};
ghost use Rattle.commands.specs.Picked.{IsPickFrom};
ghost use Rattle.commands.specs.declared.picks.Pick.{Pick as Consumer};
ghost use Rattle.broker.specs.Leaving.{remains};
ghost use Rattle.broker.specs.Rounds.{line_of, order, AllAreEmpty, AreKept, IsAwake, IsAsleep, IsNextMarked, LeavesIfNamed, NobodyFallsAsleep};
ghost use Rattle.broker.specs.Rounds.{NoneBetween, NonePassed, PicksFrom, QueuesAreMarked, SameOrders};
ghost use Rattle.broker.specs.Moving.{IsOfEither, LinesAreMoved, LinesCome, IndicesDiffer};

use crate::rounds::finding::QueueTakers;
use crate::rounds::leaving::{Leavers, PlaceMarks};
use commands::{Core, Pick};
use marks::{Flat, IndexSet, Over};
use std::alloc::{AllocError, Global};
use std::mem::swap;
use waiting_lines::{Line, pick};

/// A consumer to which a delivery can be made, with the index of its queue.
#[derive(Clone, Copy, PartialEq, Eq, Debug, Drop)]
pub(crate) struct Found {
    pub queue: usize,
    pub pick: Pick,
}

/// Returns `count` empty lines.
pub(crate) fn empty_lines(alloc: Global, count: usize) -> Result<Vec<Line<Pick>>, AllocError>
    ensures len { IfOk result (λ lines. length lines.items ≡ count) }
    ensures empty { IfOk result (λ lines. AllAreEmpty lines.items) }
{
    let mut lines = Vec::new(alloc);
    for _ in 0..count {
        lines.push(Line::new(alloc))?;
    }
    Ok(lines)
}

/// Returns a bit for each of `count` queues, all 0.
pub(crate) fn empty_marks(alloc: Global, count: usize) -> Result<PlaceMarks, AllocError>
    ensures { IfOk result (λ marks. count ≤ length marks * 64) }
{
    let mut marks = <Over<Flat>>::empty(alloc);
    marks.grow(count)?;
    Ok(marks)
}

/// Returns the index of the first queue at or after `from` with a ready message and a bit that is 1. Searches the two sets alternately, so a run of
/// queues that are all missing from one of the sets is passed in one step.
fn next_both(core: &Core, awake: &PlaceMarks, from: usize) -> Option<usize>
    ensures { IsNextMarked core.now awake.now from result }
{
    let mut next = from;
    'turns: while let Some(ready) = core.next_ready(next) {
        let place = awake.next(ready)?;
        if place == ready {
            return Some(place);
        }
        next = place;
    }
    None
}

/// Picks from the queue at index `queue`, which has a ready message. Clears its bit if it picks none.
fn pick_at(
    lines: &mut [Line<Pick>],
    awake: &mut PlaceMarks,
    core: &Core,
    queue: usize,
) -> Option<Pick>
    // What the caller knows of the queue.
    requires within { queue < length lines.old }
    requires ready { HasReady core.now.store queue }
    requires kept { AreKept core.now lines.old }
    requires here { bit_of awake.old queue ≡ 1 }
    requires marked { QueuesAreMarked lines.old awake.old }
    // The frame.
    ensures kept { AreKept core.now lines.new }
    ensures marked { QueuesAreMarked lines.new awake.new }
    // What is picked, and that nothing comes before it.
    ensures some { IfSome result (λ p. IsPickFrom core.now queue p) }
    ensures none { result ≡ None → (p : Consumer) → IsPickFrom core.now queue p → ⊥ }
    ensures picked { IfSome result (λ p. PicksFrom core.now lines.old lines.new queue p) }
    ensures same { result ≡ None → SameOrders lines.old lines.new }
{
    match pick(&mut lines[queue], &QueueTakers { core, queue }) {
        Some(pick) => Some(pick),
        None => {
            awake.clear(queue);
            None
        }
    }
}

/// Picks from the first queue of the indices `from..to` from which a delivery can be made.
fn first_between(
    lines: &mut [Line<Pick>],
    awake: &mut PlaceMarks,
    core: &Core,
    from: usize,
    to: usize,
) -> Option<Found>
    requires kept { AreKept core.now lines.old }
    requires marked { QueuesAreMarked lines.old awake.old }
    // The frame.
    ensures kept { AreKept core.now lines.new }
    ensures marked { QueuesAreMarked lines.new awake.new }
    // What is found, and that nothing comes before it.
    ensures within { IfSome result (λ f. f.queue < length lines.new) }
    ensures some { IfSome result (λ f. IsPickFrom core.now f.queue f.pick) }
    ensures none { result ≡ None → NoneBetween core.now from to }
    ensures passed { IfSome result (λ f. NoneBetween core.now from f.queue) }
    ensures least { IfSome result (λ f. from ≤ f.queue) }
    ensures below { IfSome result (λ f. f.queue < to) }
    ensures picked { IfSome result (λ f. PicksFrom core.now lines.old lines.new f.queue f.pick) }
    ensures same { result ≡ None → SameOrders lines.old lines.new }
{
    let mut next = from;
    'queues: while let Some(queue) = next_both(core, awake, next) {
        if queue >= to {
            return None;
        }
        if let Some(pick) = pick_at(lines, awake, core, queue) {
            return Some(Found { queue, pick });
        }
        next = queue + 1;
    }
    None
}

/// Picks from the first queue from which a delivery can be made, from index `next` on and then from the front.
pub(crate) fn first_from(
    lines: &mut [Line<Pick>],
    awake: &mut PlaceMarks,
    core: &Core,
    next: usize,
) -> Option<Found>
    requires kept { AreKept core.now lines.old }
    requires marked { QueuesAreMarked lines.old awake.old }
    // The frame.
    ensures kept { AreKept core.now lines.new }
    ensures marked { QueuesAreMarked lines.new awake.new }
    // What is found, and that nothing comes before it.
    ensures within { IfSome result (λ f. f.queue < length lines.new) }
    ensures some { IfSome result (λ f. IsPickFrom core.now f.queue f.pick) }
    ensures none { result ≡ None → NoneBetween core.now 0 (length lines.old) }
    ensures passed { IfSome result (λ f. NonePassed core.now (length lines.old) next f.queue) }
    ensures picked { IfSome result (λ f. PicksFrom core.now lines.old lines.new f.queue f.pick) }
    ensures same { result ≡ None → SameOrders lines.old lines.new }
{
    let turn = next.min(lines.len());
    match first_between(lines, awake, core, turn, lines.len()) {
        Some(found) => Some(found),
        None => first_between(lines, awake, core, 0, turn),
    }
}

/// Sets the bit of the queue at index `place` if a consumer is awake in `line`, which is or becomes its line.
fn mark_line(awake: &mut PlaceMarks, line: &Line<Pick>, place: usize)
    requires { place < length awake.old * 64 }
    ensures len { length awake.new ≡ length awake.old }
    ensures here { (p : Consumer) → IsAwake line.now p → bit_of awake.new place ≡ 1 }
    ensures stay { (k : ℕ) → bit_of awake.old k ≡ 1 → bit_of awake.new k ≡ 1 }
{
    if line.next_awake(0).is_some() {
        awake.set(place);
    }
}

/// Removes those who leave from the line of the queue at index `queue`, in one pass.
fn sweep_at(lines: &mut [Line<Pick>], awake: &mut PlaceMarks, queue: usize, who: Leavers)
    requires within { queue < length lines.old }
    requires marked { QueuesAreMarked lines.old awake.old }
    ensures here { order (line_of lines.new queue) ≡ filter (remains who) (order (line_of lines.old queue)) }
    ensures awake { (p : Consumer) → IsAsleep (line_of lines.new queue) p → ⊥ }
    ensures others { (i : ℕ) → (i ≡ queue → ⊥) → line_of lines.new i ≡ line_of lines.old i }
    ensures marked { QueuesAreMarked lines.new awake.new }
{
    lines[queue].sweep(&who);
    mark_line(awake, &lines[queue], queue);
}

/// Removes those who leave from the line of each queue in `named`, once, and empties the set.
pub(crate) fn sweep_named(
    lines: &mut [Line<Pick>],
    awake: &mut PlaceMarks,
    named: &mut PlaceMarks,
    who: Leavers,
)
    requires { QueuesAreMarked lines.old awake.old }
    ensures left { (place : ℕ) → LeavesIfNamed who named.old lines.old lines.new place }
    ensures asleep { NobodyFallsAsleep lines.old lines.new }
    ensures marked { QueuesAreMarked lines.new awake.new }
    ensures size { length named.new ≡ length named.old }
{
    let mut next = 0;
    'named: while let Some(queue) = named.next(next) {
        if queue >= lines.len() {
            return;
        }
        named.clear(queue);
        sweep_at(lines, awake, queue, who);
        next = queue + 1;
    }
}

/// If there is a queue at index `place`, swaps its line with `line`.
fn move_line(lines: &mut [Line<Pick>], awake: &mut PlaceMarks, place: usize, line: &mut Line<Pick>)
    requires { QueuesAreMarked lines.old awake.old }
    ensures moved { place < length lines.old → (line_of lines.new place).order ≡ line.old.order }
    ensures others { (i : ℕ) → (i ≡ place → ⊥) → line_of lines.new i ≡ line_of lines.old i }
    ensures came { (i : ℕ) → IsOfEither place i (line_of lines.old i) line.old (line_of lines.new i) }
    ensures marked { QueuesAreMarked lines.new awake.new }
{
    if place < lines.len() {
        mark_line(awake, line, place);
        swap(&mut lines[place], line);
    }
}

/// Moves each line of `old` to the index that `places` has for it, if there is such a queue.
pub(crate) fn move_lines(
    lines: &mut [Line<Pick>],
    awake: &mut PlaceMarks,
    old: &mut [Line<Pick>],
    places: &[usize],
)
    // What the caller knows: `places` has an entry for each line of `old`, no two name the same queue, and the bits are right.
    requires len { length places.now ≡ length old.old }
    requires distinct { IndicesDiffer places.now (length lines.old) }
    requires marked { QueuesAreMarked lines.old awake.old }
    // The lines of `old` are at their new indices, any other line is as it was, and the bits are right.
    ensures moved { LinesAreMoved places.now old.old lines.new }
    ensures came { LinesCome places.now old.old lines.old lines.new }
    ensures marked { QueuesAreMarked lines.new awake.new }
{
    for (from, place) in places.iter().enumerate() {
        move_line(lines, awake, *place, &mut old[from]);
    }
}
