//! Iterates over the entries of a queue in the order of arrival. Start with [`Walk`].

ghost use Rattle.std.specs.Prelude.{IfSome, IfNone};
ghost use Rattle.queue.specs.Slots.{contents, somes};
ghost use Rattle.queue.specs.Walks.{all_in, entries_ahead, GoesOn, IsOver};

use crate::block::Block;
use crate::slots::Slot;
use model::Entry;
use std::marker::Model;

/// The entries still to come: the rest of a vector of entries, or the rest of a block's slots, some of them empty, and the blocks after it.
#[derive(Drop)]
enum Ahead<'a> {
    Entries(&'a [Entry]),
    Blocks(&'a [Slot], &'a [Block]),
}

/// An iterator over the entries of a queue, ready and held, in the order of arrival.
#[derive(Drop)]
pub struct Walk<'a> {
    ahead: Ahead<'a>,
}

impl<'a> Model for Walk<'a> {
    ghost use Rattle.std.specs.Prelude.{List};
    ghost use Rattle.model.specs.declared.messages.Entry.{Entry as Waiting};
    ghost use Rattle.queue.specs.Walks.{entries_ahead};

    ghost Value = { List Waiting };

    ghost view = { λ w. entries_ahead w.ahead };
}

/// Removes and returns the first entry of `slots`, with the empty slots before it. Takes a step for each of them.
fn first_of<'a>(slots: &mut &'a [Slot]) -> Option<&'a Entry>
    ensures some { IfSome result (λ e. GoesOn (somes (contents slots.old.now)) (somes (contents slots.new.now)) e.now) }
    ensures none { IfNone result (IsOver (somes (contents slots.old.now)) (somes (contents slots.new.now))) }
{
    'slots: while let Some(slot) = slots.split_off_first() {
        if let Some(entry) = &slot.entry {
            return Some(entry);
        }
    }
    None
}

/// Removes and returns the first entry of `slots`, or, if they have none, of `blocks`.
fn first_in<'a>(slots: &mut &'a [Slot], blocks: &mut &'a [Block]) -> Option<&'a Entry>
    ensures some { IfSome result (λ e. GoesOn (all_in slots.old.now blocks.old.now) (all_in slots.new.now blocks.new.now) e.now) }
    ensures none { IfNone result (IsOver (all_in slots.old.now blocks.old.now) (all_in slots.new.now blocks.new.now)) }
{
    if let Some(entry) = first_of(slots) {
        return Some(entry);
    }
    'ahead: while let Some(block) = blocks.split_off_first() {
        *slots = block.slots();
        if let Some(entry) = first_of(slots) {
            return Some(entry);
        }
    }
    None
}

/// Removes and returns the first entry still to come, or returns `None` if there is none.
fn next_of<'a>(ahead: &mut Ahead<'a>) -> Option<&'a Entry>
    ensures some { IfSome result (λ e. GoesOn (entries_ahead ahead.old) (entries_ahead ahead.new) e.now) }
    ensures none { IfNone result (IsOver (entries_ahead ahead.old) (entries_ahead ahead.new)) }
{
    match ahead {
        Ahead::Entries(entries) => entries.split_off_first(),
        Ahead::Blocks(slots, blocks) => first_in(slots, blocks),
    }
}

impl<'a> Walk<'a> {
    ghost use Rattle.std.specs.Prelude.{◌≡◌, []};
    ghost use Rattle.queue.specs.Blocks.{parts, joined};

    /// Returns an iterator without entries.
    pub fn empty() -> Walk<'a>
        ensures { result ≡ [] }
    {
        Walk::of_entries(&[])
    }

    /// Returns an iterator over `entries`.
    pub(crate) fn of_entries(entries: &'a [Entry]) -> Walk<'a>
        ensures { result ≡ entries.now }
    {
        Walk {
            ahead: Ahead::Entries(entries),
        }
    }

    /// Returns an iterator over the entries of `blocks`.
    pub(crate) fn of_blocks(blocks: &'a [Block]) -> Walk<'a>
        ensures { result ≡ joined (parts blocks.now) }
    {
        Walk {
            ahead: Ahead::Blocks(&[], blocks),
        }
    }
}

impl<'a> Iterator for Walk<'a> {
    ghost use Rattle.std.specs.Iterator.{YieldsFirstRef, item_count};

    type Item = &'a Entry;

    ghost next_gives = { YieldsFirstRef (λ entries. entries) };

    ghost remaining = { item_count (λ entries. entries) };

    fn next(&mut self) -> Option<&'a Entry> {
        next_of(&mut self.ahead)
    }
}
