//! Names and keys as byte strings, of which long ones are shared and short ones copied; and the words of topic patterns.

ghost use Rattle.std.specs.Prelude.{◌≡◌, ◌≤◌, [], length, take, IfOk, IfErr};

use crate::places::{first_of, padded};
use std::alloc::{AllocError, AllocFailed, Global};
use std::marker::Model;
use std::sync::Arc;

/// The most bytes that a text keeps in place.
const MOST_SHORT: usize = 22;

/// Where the bytes of a text are kept.
#[derive(Drop)]
enum Kept {
    /// In a block that all clones share.
    Shared(Arc<Vec<u8>>),
    /// In the text itself: the length, and an array that begins with the bytes.
    Short(u8, [u8; 22]),
}

/// A name or a key: any bytes, in a value of 24 bytes. Clones share the bytes if there are more than 22.
pub struct Text {
    kept: Kept,
}

/// Not derived: a derived drop is expanded, and proved again, in each function that drops the value.
impl Drop for Text {
    fn drop(self) {
        let Text { kept: _ } = self;
    }
}

impl Model for Text {
    ghost use Rattle.std.specs.Prelude.{List, ℕ, take};
    ghost use Rattle.model.specs.declared.texts.Kept.TheVariants.{Shared, Short};

    ghost Value = { List ℕ };

    ghost view = { λ t. elim t.kept [ Shared a ↦ a.value.items | Short len place ↦ take len place ] };
}

impl Text {
    /// Returns a text of no bytes. Never allocates.
    pub fn empty() -> Text
        ensures { result ≡ [] }
    {
        Text::short(&[])
    }

    /// Returns a text that keeps `bytes`, at most 22, in place. Never allocates.
    pub fn short(bytes: &[u8]) -> Text
        requires { length bytes.now ≤ 22 }
        ensures { result ≡ bytes.now }
    {
        Text {
            kept: Kept::Short(bytes.len() as u8, padded(bytes)),
        }
    }

    /// Converts `bytes` into a text without copying more than 22 bytes. If an allocation fails, the error holds `bytes`.
    pub fn from_vec(bytes: Vec<u8>) -> Result<Text, AllocFailed<Vec<u8>>>
        ensures ok { IfOk result (λ t. t ≡ bytes.items) }
        ensures err { IfErr result (λ e. e.value ≡ bytes) }
    {
        if bytes.len() <= MOST_SHORT {
            return Ok(Text::short(&bytes));
        }
        let alloc = *bytes.allocator();
        match Arc::new(alloc, bytes) {
            Ok(shared) => Ok(Text {
                kept: Kept::Shared(shared),
            }),
            Err(failed) => Err(failed),
        }
    }

    /// Copies `bytes`. Allocates only for more than 22 bytes, and fails only if an allocation fails.
    pub fn from_slice(alloc: Global, bytes: &[u8]) -> Result<Text, AllocError>
        ensures { IfOk result (λ t. t ≡ bytes.now) }
    {
        if bytes.len() <= MOST_SHORT {
            return Ok(Text::short(bytes));
        }
        match Text::from_vec(Vec::from_slice(alloc, bytes)?) {
            Ok(text) => Ok(text),
            Err(_) => Err(AllocError),
        }
    }

    /// Returns the same text, sharing its bytes if there are more than 22.
    pub fn clone(&self) -> Result<Text, AllocError>
        ensures { IfOk result (λ t. t ≡ self.now) }
    {
        match &self.kept {
            Kept::Shared(shared) => Ok(Text {
                kept: Kept::Shared(Arc::try_clone(shared)?),
            }),
            Kept::Short(len, place) => Ok(Text {
                kept: Kept::Short(*len, *place),
            }),
        }
    }

    pub fn as_bytes(&self) -> &[u8]
        ensures { result.now ≡ self.now }
    {
        match &self.kept {
            Kept::Shared(shared) => shared.as_slice(),
            Kept::Short(len, place) => first_of(place, *len),
        }
    }

    /// Returns the length in bytes.
    pub fn len(&self) -> usize
        ensures { result ≡ length self.now }
    {
        self.as_bytes().len()
    }
}

/// A word of a topic pattern. Source: AMQP 0-9-1, section 3.1.3.3, "The Topic Exchange Type".
#[derive(Drop)]
pub enum Token {
    /// Matches this word alone.
    Word(Text),
    /// `*`: matches exactly one word.
    One,
    /// `#`: matches any number of words, none included.
    Any,
}
