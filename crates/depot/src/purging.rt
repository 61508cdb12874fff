//! Removes the ready messages of a queue.

ghost use Rattle.std.specs.Prelude.{◌≡◌, ◌+◌, ◌<◌, ◌≤◌, ◌++◌, length, map, take, drop, filter, not, replicate, IfOk, OnOk, OnErr, vec_len, vec_capacity};
ghost use Rattle.model.specs.Broker.{is_ready};
ghost use Rattle.model.specs.Entries.{number_of};
ghost use Rattle.model.specs.Deliveries.{ready_in, purge_notes};
ghost use Rattle.notes.specs.Numbered.{numbered};
ghost use Rattle.queue.specs.Line.{ready_count};
ghost use Rattle.model.specs.declared.notes.Cause.TheVariants.{Purged};
ghost use Rattle.model.specs.declared.notes.Note.TheVariants.{Left};

use crate::queues::Queue;
use model::{Cause, Note, Text};
use notes::Notes;
use queue::Store;
use std::alloc::AllocError;

/// Appends `count` notes that message 0 left the queue `name` by a purge. There is capacity for them. Fails only if an allocation fails; some
/// are appended then.
#[tactic(auto, using(crate::proofs::Purged::blanks_more, crate::proofs::Purged::front_stays))]
fn add_blanks(name: &Text, count: usize, notes: &mut Notes) -> Result<(), AllocError>
    requires { vec_len notes.old + count ≤ vec_capacity notes.old }
    ensures ok { OnOk result (notes.new.items ≡ notes.old.items ++ replicate count (Left 0 name.now Purged)) }
    ensures front { take (length notes.old.items) notes.new.items ≡ notes.old.items }
{
    for _ in 0..count {
        notes.push_reserved(Note::Left {
            number: 0,
            queue: name.clone()?,
            cause: Cause::Purged,
        });
    }
    Ok(())
}

/// Appends `count` notes as [`add_blanks`] does. If that fails, the notes are as before.
fn add_notes(name: &Text, count: usize, notes: &mut Notes) -> Result<(), AllocError>
    ensures ok { OnOk result (notes.new.items ≡ notes.old.items ++ replicate count (Left 0 name.now Purged)) }
    ensures err { OnErr result (notes.new.items ≡ notes.old.items) }
{
    let len = notes.len();
    notes.reserve_exact(count)?;
    if add_blanks(name, count, notes).is_err() {
        notes.truncate(len);
        return Err(AllocError);
    }
    Ok(())
}

/// Removes the ready messages of `queue`, and sets the number in the note of each. The notes are there already, from index `first` on, each
/// equal to `note` with number 0.
fn take_ready(queue: &mut Queue, first: usize, note: Note, notes: &mut Notes)
    requires within { first ≤ length notes.old.items }
    requires blank { drop first notes.old.items ≡ replicate (ready_in queue.old.entries) (numbered 0 note) }
    ensures noted { notes.new.items ≡ take first notes.old.items ++ map (λ e. numbered (number_of e) note) (filter is_ready queue.old.entries) }
    ensures entries { queue.new.entries ≡ filter (λ e. not (is_ready e)) queue.old.entries }
{
    let mut note = note;
    let mut place = first;
    'taking: while let Some(entry) = queue.take_first() {
        notes.set_number(place, &mut note, entry.message.number());
        place += 1;
    }
}

/// Removes the ready messages of `queue`, whose name is `name`, with a note for each, and returns their number. Fails only if there is one
/// and an allocation fails; nothing has changed then. If nobody keeps the notes, nothing is allocated for each message.
pub(crate) fn purge_in(
    queue: &mut Queue,
    name: &Text,
    notes: &mut Notes,
) -> Result<usize, AllocError>
    // What is returned, noted and removed.
    ensures reported { IfOk result (λ count. count ≡ ready_in queue.old.entries) }
    ensures noted { IfOk result (λ count. notes.new.items ≡ notes.old.items ++ purge_notes name.now (filter is_ready queue.old.entries)) }
    ensures entries { IfOk result (λ count. queue.new.entries ≡ filter (λ e. not (is_ready e)) queue.old.entries) }
    // A failure changes nothing, and comes only if there is a ready message.
    ensures queue { OnErr result (queue.new.entries ≡ queue.old.entries) }
    ensures notes { OnErr result (notes.new.items ≡ notes.old.items) }
    ensures wanted { OnErr result (0 < ready_count queue.old.entries) }
{
    let count = queue.ready();
    if count == 0 {
        return Ok(0);
    }
    let note = Note::Left {
        number: 0,
        queue: name.clone()?,
        cause: Cause::Purged,
    };
    let first = notes.len();
    add_notes(name, count, notes)?;
    take_ready(queue, first, note, notes);
    Ok(count)
}
