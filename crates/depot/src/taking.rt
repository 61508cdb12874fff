//! Gives messages out.

ghost use Rattle.std.specs.Prelude.{◌≡◌, ◌++◌, find, vec_len, vec_capacity};
ghost use Rattle.model.specs.Broker.{is_ready};
ghost use Rattle.depot.specs.Givings.{CanGive, HasRoomFor, ReturnsArrival, given_notes, given_so};

use crate::givings::Giving;
use crate::queues::Queue;
use model::{Cause, Note};
use notes::Notes;
use queue::Store;

/// Gives out the first ready message of `queue`, if any: marks it as held and returns the number of its arrival, or removes it with a note.
pub(crate) fn give(queue: &mut Queue, how: Giving, notes: &mut Notes) -> Option<u64>
    requires free { CanGive how queue.old.entries }
    requires room { HasRoomFor how (vec_len notes.old) (vec_capacity notes.old) }
    ensures reported { ReturnsArrival how (find is_ready queue.old.entries) result }
    ensures entries { queue.new.entries ≡ given_so how queue.old.entries }
    ensures notes { notes.new.items ≡ notes.old.items ++ given_notes how (find is_ready queue.old.entries) }
{
    match how {
        Giving::Held(holder) => queue.hold(holder),
        Giving::Out(name) => {
            if let Some(entry) = queue.take_first() {
                notes.push_reserved(Note::Left {
                    number: entry.message.number(),
                    queue: name,
                    cause: Cause::Auto,
                });
            }
            None
        }
    }
}
