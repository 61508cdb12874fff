//! A storage that no output holds.

ghost use Rattle.std.specs.Prelude.{◌≡◌, vec_capacity};

use std::marker::Model;

/// A storage that no output holds. Contracts see its size, and how many had come back when it did.
#[derive(Drop)]
pub(crate) struct Spare {
    storage: Vec<u8>,
    since: u64,
}

impl Model for Spare {
    ghost use Rattle.std.specs.Prelude.{vec_capacity};
    ghost use Rattle.outputs.specs.Storages.{Storage};

    ghost Value = { Storage };

    ghost view = { λ s. record { since = s.since; bytes = vec_capacity s.storage } };
}

impl Spare {
    /// Makes a spare storage of `storage`, which became spare when `since` storages had come back.
    pub(crate) fn new(storage: Vec<u8>, since: u64) -> Spare
        ensures { result ≡ record { since = since; bytes = vec_capacity storage } }
    {
        Spare { storage, since }
    }

    /// Returns how many storages had come back when this one became spare.
    pub(crate) fn since(&self) -> u64
        ensures { result ≡ self.now.since }
    {
        self.since
    }

    /// Returns the storage.
    pub(crate) fn into_storage(self) -> Vec<u8>
        ensures { vec_capacity result ≡ self.bytes }
    {
        let Spare { storage, since: _ } = self;
        storage
    }
}
