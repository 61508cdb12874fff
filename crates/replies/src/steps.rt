//! What a step sends and notes.

ghost use Rattle.std.specs.Prelude.{◌≡◌, ◌<◌, ◌≤◌, ◌+◌, ◌∷◌, ◌++◌, ◌&&◌, [], None, IfOk, is_some, cond, vec_len, vec_capacity};
ghost use Rattle.model.specs.Step as said;
ghost use Rattle.model.specs.Step.{confirm_sends, confirm_notes, returned_notes};
ghost use Rattle.replies.specs.Sent.{AreAddressed, sent_back};

use crate::answers::{answer_of, confirm};
use model::{Note, Send};
use notes::Notes;
use std::alloc::{AllocError, Global};

/// What a step sends, in this order, and what it notes.
#[derive(Drop)]
pub struct Step {
    pub sends: Vec<Send>,
    pub notes: Notes,
}

impl Step {
    /// Returns a step that sends and notes nothing. Never allocates.
    pub fn nothing(alloc: Global) -> Step
        ensures sends { result.sends.items ≡ [] }
        ensures notes { result.notes.items ≡ [] }
    {
        Step {
            sends: Vec::new(alloc),
            notes: Notes::new(alloc),
        }
    }

    /// Returns a step that sends nothing and notes `notes`. Never allocates.
    pub fn noting(alloc: Global, notes: Notes) -> Step
        ensures sends { result.sends.items ≡ [] }
        ensures notes { result.notes ≡ notes }
    {
        Step {
            sends: Vec::new(alloc),
            notes,
        }
    }

    /// Returns a step that sends `send` and notes nothing. Fails only if an allocation fails.
    pub fn sending(alloc: Global, send: Send) -> Result<Step, AllocError>
        ensures sends { IfOk result (λ s. s.sends.items ≡ send ∷ []) }
        ensures notes { IfOk result (λ s. s.notes.items ≡ []) }
    {
        let mut sends = Vec::new(alloc);
        sends.reserve_exact(1)?;
        sends.push_reserved(send);
        Ok(Step {
            sends,
            notes: Notes::new(alloc),
        })
    }

    /// If publish `number` was routed nowhere (`is_none`), appends `returned`, if any, to the sends, and a note of it. There is capacity for both.
    pub fn send_back(&mut self, number: u64, returned: Option<Send>, is_none: bool)
        requires sends { vec_len self.old.sends < vec_capacity self.old.sends }
        requires notes { vec_len self.old.notes < vec_capacity self.old.notes }
        // The return is appended if `is_none`.
        ensures sends { self.new.sends.items ≡ self.old.sends.items ++ sent_back is_none returned }
        ensures notes { self.new.notes.items ≡ self.old.notes.items ++ returned_notes number (is_none && is_some returned) }
        // The frame: at most one send and one note are added.
        ensures sends_len { vec_len self.new.sends ≤ vec_len self.old.sends + cond (is_some returned) 1 0 }
        ensures notes_len { vec_len self.new.notes ≤ vec_len self.old.notes + 1 }
        ensures sends_capacity { vec_capacity self.new.sends ≡ vec_capacity self.old.sends }
        ensures notes_capacity { vec_capacity self.new.notes ≡ vec_capacity self.old.notes }
    {
        if !is_none {
            return;
        }
        if let Some(send) = returned {
            self.sends.push_reserved(send);
            self.notes.push_reserved(Note::Returned { number });
        }
    }

    /// Appends the confirm of publish `number` to the sends and to the notes, if it has a confirm number: nack if a routed queue was full
    /// (`is_some_full`), otherwise ack. There is capacity for both.
    pub fn confirm(
        &mut self,
        connection: u64,
        channel: u16,
        number: u64,
        confirm_number: Option<u64>,
        is_some_full: bool,
    )
        requires sends { vec_len self.old.sends < vec_capacity self.old.sends }
        requires notes { vec_len self.old.notes < vec_capacity self.old.notes }
        ensures sends { self.new.sends.items ≡ self.old.sends.items ++ confirm_sends connection channel confirm_number (said.answer_of is_some_full) }
        ensures notes { self.new.notes.items ≡ self.old.notes.items ++ confirm_notes number confirm_number (said.answer_of is_some_full) }
        ensures addressed { AreAddressed connection (confirm_sends connection channel confirm_number (said.answer_of is_some_full)) }
    {
        if let Some(confirm_number) = confirm_number {
            let answer = answer_of(is_some_full);
            self.sends
                .push_reserved(confirm(connection, channel, answer, confirm_number));
            self.notes.push_reserved(Note::Confirmed { number, answer });
        }
    }
}
