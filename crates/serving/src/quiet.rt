//! Marks slots for which there is nothing to do until something comes for them.

ghost use Rattle.std.specs.Prelude.{◌≡◌, IfOk, replicate, slice_index_or, slice_set, false, true};
ghost use Rattle.serving.specs.Quiet.{IsNextLoud};

use crate::slot_marks::SlotMarks;
use std::alloc::{AllocError, Global};
use std::marker::Model;

/// The number of remembered slots. Connections whose numbers are equal modulo this share one.
const REMEMBERED: usize = 16_384;

/// The slots that are marked as quiet. A slot without a mark is loud.
#[derive(Drop)]
pub(crate) struct Quiet {
    marks: SlotMarks,
    /// The slot of each connection, at its number modulo [`REMEMBERED`]. A hint: connections share entries, and the last one remembered counts.
    slots: Vec<u16>,
}

impl Model for Quiet {
    ghost use Rattle.std.specs.Prelude.{Bool, List};

    ghost Value = { List Bool };

    ghost view = { λ q. q.marks };
}

impl Quiet {
    /// Marks all of `slots` slots, none of which has a peer yet. Fails only if an allocation fails.
    pub(crate) fn new(alloc: Global, slots: usize) -> Result<Quiet, AllocError>
        ensures { IfOk result (λ q. q ≡ replicate slots true) }
    {
        Ok(Quiet {
            marks: SlotMarks::all(alloc, slots)?,
            slots: vec![in alloc; 0; REMEMBERED]?,
        })
    }

    /// Remembers that `connection` has `slot`.
    pub(crate) fn learn(&mut self, connection: u64, slot: usize)
        ensures { self.new ≡ self.old }
    {
        let place = connection as usize % REMEMBERED;
        if place < self.slots.len() {
            self.slots[place] = (slot % 65_536) as u16;
        }
    }

    /// Returns the slot that `connection` is likely to have.
    pub(crate) fn guess(&self, connection: u64) -> usize {
        let place = connection as usize % REMEMBERED;
        if place < self.slots.len() {
            self.slots[place] as usize
        } else {
            0
        }
    }

    /// Returns whether `slot` is marked.
    pub(crate) fn contains(&self, slot: usize) -> bool
        ensures { result ≡ slice_index_or self.now slot false }
    {
        self.marks.contains(slot)
    }

    /// Marks `slot` if `is_quiet`, otherwise removes its mark.
    pub(crate) fn mark(&mut self, slot: usize, is_quiet: bool)
        ensures { self.new ≡ slice_set self.old slot is_quiet }
    {
        self.marks.mark(slot, is_quiet);
    }

    /// Returns the first slot without a mark at or after `from`. Slots past the end of the marks have none.
    pub(crate) fn next_loud(&self, from: usize) -> usize
        ensures { IsNextLoud self.now from result }
    {
        self.marks.next_loud(from)
    }
}
