//! Marks of slots. The next slot without a mark is found without looking at each.

ghost use Rattle.std.specs.Prelude.{◌≡◌, ◌<◌, ◌≤◌, ◌*◌, ℕ, IfOk, cond, length, replicate, slice_index_or, slice_set, false, true};
ghost use Rattle.marks.specs.Sets.{Differs, bit_of};
ghost use Rattle.serving.specs.Quiet.{IsNextLoud};

use marks::{Flat, IndexSet, Over};
use std::alloc::{AllocError, Global};
use std::marker::Model;

/// A set of slots, in which the next one is found without looking at each.
type SlotSet = Over<Flat>;

/// A mark for each slot.
#[derive(Drop)]
pub(crate) struct SlotMarks {
    marks: Vec<bool>,
    /// The slots without a mark.
    loud: SlotSet,
}

impl Model for SlotMarks {
    ghost use Rattle.std.specs.Prelude.{Bool, List};
    ghost use Rattle.serving.specs.Quiet.{AreLoud};

    ghost Value = { List Bool };

    ghost view = { λ m. m.marks.items };

    ghost invariant = { λ m. AreLoud m.loud m.marks.items };
}

/// Adds `slot` to the set if `is_in`, otherwise removes it.
fn put(set: &mut SlotSet, slot: usize, is_in: bool)
    requires { slot < length set.old * 64 }
    ensures bit { Differs (bit_of set.old) (bit_of set.new) slot (cond is_in 1 0) }
    ensures len { length set.new ≡ length set.old }
{
    if is_in {
        set.set(slot);
    } else {
        set.clear(slot);
    }
}

/// Returns an empty set with a bit for each of `slots` slots.
fn room_for(alloc: Global, slots: usize) -> Result<SlotSet, AllocError>
    ensures none { IfOk result (λ set. (i : ℕ) → bit_of set i ≡ 0) }
    ensures room { IfOk result (λ set. slots ≤ length set * 64) }
{
    let mut set = <Over<Flat>>::empty(alloc);
    set.grow(slots)?;
    Ok(set)
}

/// Returns a mark for each of `slots` slots.
fn all_marked(alloc: Global, slots: usize) -> Result<Vec<bool>, AllocError>
    ensures { IfOk result (λ marks. marks.items ≡ replicate slots true) }
{
    let marks = vec![in alloc; true; slots]?;
    Ok(marks)
}

impl SlotMarks {
    /// Marks all of `slots` slots. Fails only if an allocation fails.
    pub(crate) fn all(alloc: Global, slots: usize) -> Result<SlotMarks, AllocError>
        ensures { IfOk result (λ m. m ≡ replicate slots true) }
    {
        let marks = all_marked(alloc, slots)?;
        let loud = room_for(alloc, slots)?;
        Ok(SlotMarks { marks, loud })
    }

    /// Marks none of `slots` slots. Fails only if an allocation fails.
    pub(crate) fn none(alloc: Global, slots: usize) -> Result<SlotMarks, AllocError>
        ensures { IfOk result (λ m. (i : ℕ) → slice_index_or m i false ≡ false) }
    {
        let mut marks = SlotMarks::all(alloc, slots)?;
        for slot in 0..slots {
            marks.mark(slot, false);
        }
        Ok(marks)
    }

    /// Returns whether `slot` is marked.
    pub(crate) fn contains(&self, slot: usize) -> bool
        ensures { result ≡ slice_index_or self.now slot false }
    {
        slot < self.marks.len() && self.marks[slot]
    }

    /// Marks `slot` if `is_marked`, otherwise removes its mark.
    pub(crate) fn mark(&mut self, slot: usize, is_marked: bool)
        ensures { self.new ≡ slice_set self.old slot is_marked }
    {
        if slot < self.marks.len() {
            self.marks[slot] = is_marked;
            put(&mut self.loud, slot, !is_marked);
        }
    }

    /// Returns the first slot without a mark at or after `from`. Slots past the end of the marks have none.
    pub(crate) fn next_loud(&self, from: usize) -> usize
        ensures { IsNextLoud self.now from result }
    {
        if !self.contains(from) {
            return from;
        }
        match self.loud.next(from) {
            Some(slot) => slot,
            None => from.max(self.marks.len()),
        }
    }
}
