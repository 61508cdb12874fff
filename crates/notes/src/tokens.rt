//! Values that only contracts see.

ghost use Rattle.std.specs.Prelude.{◌≡◌, ℕ, List};
ghost use Rattle.std.specs.Borrow.{ftrue};
ghost use Rattle.model.specs.declared.notes.Note.{Note};

use model::{Note, Text};
use std::marker::Model;

/// A note that only contracts see: it has no bytes.
#[derive(Drop)]
pub struct Token {
    pub ghost note: { Note },
}

impl Model for Token {
    ghost also_owns = { λ _. ftrue };
}

impl Token {
    /// Returns a token of `note`.
    pub(crate) fn of(_note: &Note) -> Token
        ensures { result.note ≡ _note.now }
    {
        Token {}
    }
}

/// A name that only contracts see: it has no bytes.
#[derive(Drop)]
pub struct NameToken {
    pub ghost name: { List ℕ },
}

impl Model for NameToken {
    ghost also_owns = { λ _. ftrue };
}

impl NameToken {
    /// Returns a token of `name`.
    pub(crate) fn of(_name: &Text) -> NameToken
        ensures { result.name ≡ _name.now }
    {
        NameToken {}
    }
}
