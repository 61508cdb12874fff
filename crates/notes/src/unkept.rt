//! A note that is not kept.

ghost use Rattle.std.specs.Prelude.{◌≡◌};
ghost use Rattle.model.specs.declared.notes.Note.TheVariants.{Left};

use crate::tokens::{NameToken, Token};
use model::{Cause, Note, Text};
use std::marker::Model;

/// A note that nobody keeps: contracts see it, and it has no bytes. The name of the queue that a message left is apart from the note.
#[derive(Drop)]
pub struct Unkept {
    token: Token,
    queue: NameToken,
}

impl Model for Unkept {
    ghost use Rattle.model.specs.declared.notes.Note.{Note};
    ghost use Rattle.notes.specs.Numbered.{in_queue};

    ghost Value = { Note };

    ghost view = { λ u. in_queue u.queue.name u.token.note };
}

impl Unkept {
    /// Returns an `Unkept` in place of `note`: contracts still see the note, and nothing of it is stored.
    pub(crate) fn of(note: &Note) -> Unkept
        ensures { result ≡ note.now }
    {
        let queue = match note {
            Note::Left { queue, .. } => NameToken::of(queue),
            _ => NameToken::of(&Text::empty()),
        };
        Unkept {
            token: Token::of(note),
            queue,
        }
    }

    /// Returns an `Unkept` of the note that message number `number` left `queue` for `cause`. No name is copied.
    pub(crate) fn left(number: u64, queue: &Text, cause: Cause) -> Unkept
        ensures { result ≡ Left number queue.now cause }
    {
        let unnamed = Note::Left {
            number,
            queue: Text::empty(),
            cause,
        };
        Unkept {
            token: Token::of(&unnamed),
            queue: NameToken::of(queue),
        }
    }
}
