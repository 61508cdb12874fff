//! Marks the exchanges and queues that a route has met, by index.

ghost use Rattle.std.specs.Prelude.{◌≡◌, ◌<◌, ◌∷◌, [], length, IfOk, OnOk, false, true, replicate, slice_set};
ghost use Rattle.model.specs.Topology.{IsIn};
ghost use Rattle.exchange_graph.specs.Fans.{EndsWithin};
ghost use Rattle.exchange_graph.specs.Marks.{IsPending, MarksEnds, set_indices};

use crate::ends::End;
use smallvec::SmallVec;
use std::alloc::{AllocError, Global};

/// The indices of the queues that a message is routed to. Up to four need no allocation.
pub type Targets = SmallVec<usize, 4>;

/// Replaces `marks` by `count` marks, none of them set. Fails only if an allocation fails.
pub fn unmark(marks: &mut Vec<bool>, count: usize) -> Result<(), AllocError>
    ensures { OnOk result (marks.new.items ≡ replicate count false) }
{
    marks.clear();
    marks.resize(count, false)
}

/// Replaces `marks` by `count` marks, of which only the one at `index` is set. Fails only if an allocation fails.
pub fn mark_one(marks: &mut Vec<bool>, count: usize, index: usize) -> Result<(), AllocError>
    requires { index < count }
    ensures { OnOk result (marks.new.items ≡ slice_set (replicate count false) index true) }
{
    unmark(marks, count)?;
    marks[index] = true;
    Ok(())
}

/// Marks the exchange in `seen` or the queue in `found`.
fn mark(end: End, seen: &mut [bool], found: &mut [bool])
    requires { EndsWithin (length seen.old) (length found.old) end }
    ensures { MarksEnds (end ∷ []) seen.old found.old seen.new found.new }
{
    match end {
        End::Onward(place) => seen[place] = true,
        End::Into(place) => found[place] = true,
    }
}

/// Marks each of `ends`.
pub fn mark_all(ends: &[End], seen: &mut [bool], found: &mut [bool])
    requires { (e : End) → IsIn e ends.now → EndsWithin (length seen.old) (length found.old) e }
    ensures { MarksEnds ends.now seen.old found.old seen.new found.new }
{
    for end in ends {
        mark(*end, seen, found);
    }
}

/// Returns the index of the first exchange that was met and is not done, or `None`.
pub fn pending(seen: &[bool], done: &[bool]) -> Option<usize>
    requires { length done.now ≡ length seen.now }
    ensures { IsPending seen.now done.now result }
{
    for place in 0..seen.len() {
        if seen[place] && !done[place] {
            return Some(place);
        }
    }
    None
}

/// Returns the indices of the marks that are set, in increasing order. Fails only if an allocation fails.
pub fn set_indices(alloc: Global, marks: &[bool]) -> Result<Targets, AllocError>
    ensures { IfOk result (λ places. places.items ≡ set_indices 0 marks.now) }
{
    let mut places = SmallVec::new(alloc);
    for place in 0..marks.len() {
        if marks[place] {
            places.push(place)?;
        }
    }
    Ok(places)
}
