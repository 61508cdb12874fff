//! The notes of a step.

ghost use Rattle.std.specs.Prelude.{◌≡◌, ◌+◌, ◌<◌, ◌≤◌, ◌++◌, ◌∷◌, [], set, take, eqb, slice_get, vec_len, vec_capacity};
ghost use Rattle.std.specs.Prelude.{true, false, is_some, Some, OnOk, OnErr, IfSome};
ghost use Rattle.notes.specs.Numbered.{numbered};
ghost use Rattle.model.specs.declared.notes.Note.TheVariants.{Left};
ghost use Rattle.notes.specs.Kept.{are_kept};

use crate::unkept::Unkept;
use model::{Cause, Note, Text};
use std::alloc::{AllocError, Global};
use std::marker::Model;

/// The notes in their order, kept for a reader or visible only to contracts.
#[derive(Drop)]
pub enum Held {
    Kept(Vec<Note>),
    Unkept(Vec<Unkept>),
}

/// The notes of a step, in their order. Contracts see the vector of the notes even if nobody keeps them, and whether they are kept.
#[derive(Drop)]
pub struct Notes {
    held: Held,
}

impl Model for Notes {
    ghost use Rattle.std.specs.Prelude.{true, false};
    ghost use Rattle.notes.specs.Kept.{Noted, noted};
    ghost use Rattle.notes.specs.declared.notes.Held.TheVariants.{Kept, Unkept};

    ghost Value = { Noted };

    ghost view = { λ n. elim n.held [ Kept v ↦ noted v true | Unkept v ↦ noted v false ] };
}

/// Sets the message number of `note` if it is [`Note::Left`]. Any other note stays as it is.
fn set_number(note: &mut Note, number: u64)
    ensures { note.new ≡ numbered number note.old }
{
    if let Note::Left { number: kept, .. } = note {
        *kept = number;
    }
}

impl Notes {
    /// Returns an empty list that keeps what is appended. Never allocates.
    pub fn new(alloc: Global) -> Notes
        ensures items { result.items ≡ [] }
        ensures kept { are_kept result ≡ true }
    {
        Notes {
            held: Held::Kept(Vec::new(alloc)),
        }
    }

    /// Returns an empty list that drops each note appended to it. Never allocates.
    pub fn unkept(alloc: Global) -> Notes
        ensures items { result.items ≡ [] }
        ensures kept { are_kept result ≡ false }
    {
        Notes {
            held: Held::Unkept(Vec::new(alloc)),
        }
    }

    /// Reserves capacity for `additional` more notes. Fails only if the allocation fails. If nobody keeps the notes, it allocates one
    /// block of no bytes.
    pub fn reserve_exact(&mut self, additional: usize) -> Result<(), AllocError>
        // The frame, also after a failure: the notes are unchanged.
        ensures items { self.new.items ≡ self.old.items }
        ensures len { vec_len self.new ≡ vec_len self.old }
        // The capacity: enough on success and never less than before; the call fails only if there was too little. Whether notes are kept stays.
        ensures ok { OnOk result (vec_len self.new + additional ≤ vec_capacity self.new) }
        ensures capacity { vec_capacity self.old ≤ vec_capacity self.new }
        ensures full { OnErr result (vec_capacity self.old < vec_len self.old + additional) }
        ensures kept { are_kept self.new ≡ are_kept self.old }
    {
        match &mut self.held {
            Held::Kept(notes) => notes.reserve_exact(additional),
            Held::Unkept(notes) => notes.reserve_exact(additional),
        }
    }

    /// Reserves capacity for `additional` more notes, and for some beyond, so that many calls copy each note only a few times. Fails only if
    /// the allocation fails. If nobody keeps the notes, it allocates one block of no bytes.
    pub fn reserve(&mut self, additional: usize) -> Result<(), AllocError>
        // The frame, also after a failure: the notes are unchanged.
        ensures items { self.new.items ≡ self.old.items }
        ensures len { vec_len self.new ≡ vec_len self.old }
        // The capacity: enough on success and never less than before; the call fails only if there was too little. Whether notes are kept stays.
        ensures ok { OnOk result (vec_len self.new + additional ≤ vec_capacity self.new) }
        ensures capacity { vec_capacity self.old ≤ vec_capacity self.new }
        ensures full { OnErr result (vec_capacity self.old < vec_len self.old + additional) }
        ensures kept { are_kept self.new ≡ are_kept self.old }
    {
        match &mut self.held {
            Held::Kept(notes) => notes.reserve(additional),
            Held::Unkept(notes) => notes.reserve(additional),
        }
    }

    /// Appends `note`. There is capacity for it.
    pub fn push_reserved(&mut self, note: Note)
        requires { vec_len self.old < vec_capacity self.old }
        ensures items { self.new.items ≡ self.old.items ++ note ∷ [] }
        ensures len { vec_len self.new ≡ vec_len self.old + 1 }
        ensures capacity { vec_capacity self.new ≡ vec_capacity self.old }
        ensures kept { are_kept self.new ≡ are_kept self.old }
    {
        match &mut self.held {
            Held::Kept(notes) => notes.push_reserved(note),
            Held::Unkept(notes) => notes.push_reserved(Unkept::of(&note)),
        }
    }

    /// Returns whether the notes are kept for a reader.
    pub fn are_kept(&self) -> bool
        ensures { result ≡ are_kept self.now }
    {
        matches!(self.held, Held::Kept(_))
    }

    /// Appends the note that message number `number` left `queue` for `cause`, to notes that nobody keeps: the name is not copied. There is capacity
    /// for it.
    pub fn push_left(&mut self, number: u64, queue: &Text, cause: Cause)
        requires unkept { are_kept self.old ≡ false }
        requires room { vec_len self.old < vec_capacity self.old }
        ensures items { self.new.items ≡ self.old.items ++ Left number queue.now cause ∷ [] }
        ensures len { vec_len self.new ≡ vec_len self.old + 1 }
        ensures capacity { vec_capacity self.new ≡ vec_capacity self.old }
        ensures kept { are_kept self.new ≡ false }
    {
        match &mut self.held {
            Held::Kept(_) => unreachable!(),
            Held::Unkept(notes) => notes.push_reserved(Unkept::left(number, queue, cause)),
        }
    }

    /// Returns the number of notes.
    pub fn len(&self) -> usize
        ensures { result ≡ vec_len self.now }
    {
        match &self.held {
            Held::Kept(notes) => notes.len(),
            Held::Unkept(notes) => notes.len(),
        }
    }

    /// Returns whether there is no note.
    pub fn is_empty(&self) -> bool
        ensures { result ≡ eqb (vec_len self.now) 0 }
    {
        self.len() == 0
    }

    /// Removes all notes behind the first `len`.
    pub fn truncate(&mut self, len: usize)
        ensures items { self.new.items ≡ take len self.old.items }
        ensures kept { are_kept self.new ≡ are_kept self.old }
    {
        match &mut self.held {
            Held::Kept(notes) => notes.truncate(len),
            Held::Unkept(notes) => notes.truncate(len),
        }
    }

    /// Sets the message number of `note`, and of its copy in the list at `index`. The copy has number 0 before, and is otherwise equal to `note`.
    pub fn set_number(&mut self, index: usize, note: &mut Note, number: u64)
        requires { slice_get self.old.items index ≡ Some (numbered 0 note.old) }
        ensures items { self.new.items ≡ set self.old.items index (numbered number note.old) }
        ensures note { note.new ≡ numbered number note.old }
        ensures kept { are_kept self.new ≡ are_kept self.old }
    {
        set_number(note, number);
        match &mut self.held {
            Held::Kept(notes) => set_number(&mut notes[index], number),
            Held::Unkept(notes) => notes[index] = Unkept::of(note),
        }
    }

    /// Returns the notes, or `None` if nobody keeps them.
    pub fn into_vec(self) -> Option<Vec<Note>>
        ensures items { IfSome result (λ notes. notes.items ≡ self.items) }
        ensures kept { is_some result ≡ are_kept self }
    {
        let Notes { held } = self;
        match held {
            Held::Kept(notes) => Some(notes),
            Held::Unkept(_) => None,
        }
    }
}
