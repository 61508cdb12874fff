//! Field tables, as the bytes of their pairs.

ghost use Rattle.std.specs.Prelude.{◌≡◌, [], length, IfOk};

use crate::texts::Text;
use std::alloc::AllocError;
use std::marker::Model;

/// A field table. Contracts see it as the bytes of its pairs: the name, type letter and value of each, without the table's length.
///
/// Source: AMQP 0-9-1, section 4.2.5.5, "Field Tables".
#[derive(Drop)]
pub struct Table {
    pairs: Text,
}

impl Model for Table {
    ghost use Rattle.std.specs.Prelude.{List, ℕ};

    ghost Value = { List ℕ };

    ghost view = { λ t. t.pairs };
}

impl Table {
    /// Returns a table of no pairs.
    pub fn empty() -> Table
        ensures { result ≡ [] }
    {
        Table {
            pairs: Text::empty(),
        }
    }

    /// Returns the table whose pairs are the bytes `pairs`, which are not checked: bytes that encode no pairs make no table on the wire.
    pub fn from_pairs(pairs: Text) -> Table
        ensures { result ≡ pairs }
    {
        Table { pairs }
    }

    /// Returns the bytes of the pairs.
    pub fn as_bytes(&self) -> &[u8]
        ensures { result.now ≡ self.now }
    {
        self.pairs.as_bytes()
    }

    /// Returns the length of the pairs in bytes.
    pub fn len(&self) -> usize
        ensures { result ≡ length self.now }
    {
        self.pairs.len()
    }

    /// Returns the same table, sharing its bytes.
    pub fn clone(&self) -> Result<Table, AllocError>
        ensures { IfOk result (λ t. t ≡ self.now) }
    {
        Ok(Table {
            pairs: self.pairs.clone()?,
        })
    }
}
