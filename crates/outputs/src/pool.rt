//! Storages of one size that no output holds.

ghost use Rattle.std.specs.Prelude.{◌≡◌, ◌≤◌, ◌<◌, ◌+◌, ℕ, drop, slice_get, vec_capacity, vec_len, IfOk, IfSome, MatchOption, OnOk, OnErr, Some};
ghost use Rattle.std.specs.List.{AllByRecursion};
ghost use Rattle.outputs.specs.Storages.{ComesBack, HasBytes, Storage, reserve_of, left_of, storage_of};

use crate::room::Room;
use crate::spare::Spare;
use std::alloc::{AllocError, Global};
use std::marker::Model;

/// The most storages of one size that are kept: as many outputs as a round of deliveries may put bytes into. The rest are freed.
const MOST_SPARE: usize = 256;

/// The number of storages that are kept however long nobody takes them.
const AT_HAND: usize = 16;

/// If more than [`AT_HAND`] are kept, one that nobody took while this many came back is freed.
const LONG: u64 = 1024;

/// Spare storages for one kind of sends. The one that came back last is given first.
#[derive(Drop)]
pub(crate) struct Pool {
    kind: Room,
    spares: Vec<Spare>,
    /// The number of storages that came back.
    returned: u64,
}

impl Model for Pool {
    ghost use Rattle.std.specs.Prelude.{◌≤◌, vec_len, vec_capacity};
    ghost use Rattle.std.specs.List.{AllByRecursion};
    ghost use Rattle.outputs.specs.Storages.{HasBytes, Pooled, storage_of};

    ghost Value = { Pooled };

    ghost view = { λ p. record { kind = p.kind; count = vec_len p.spares } };

    ghost invariant = { λ p. (vec_len p.spares ≤ 256) × (256 ≤ vec_capacity p.spares) × AllByRecursion (HasBytes (storage_of p.kind)) p.spares.items };
}

/// Frees the first of `all` if there are more than 16, and at least 1,024 storages came back after it. `count` have come back in all.
fn free_unused(all: &mut Vec<Spare>, count: u64)
    // Whether one is freed.
    ensures few { vec_len all.old ≤ 16 → all.new ≡ all.old }
    ensures unused { (s : Storage) → slice_get all.old.items 0 ≡ Some s → 16 < vec_len all.old → s.since + 1024 < count → all.new.items ≡ drop 1 all.old.items }
    ensures used { (s : Storage) → slice_get all.old.items 0 ≡ Some s → count ≤ s.since + 1024 → all.new ≡ all.old }
    // What is left.
    ensures least { 16 ≤ vec_len all.old → 16 ≤ vec_len all.new }
    ensures most { vec_len all.new ≤ vec_len all.old }
    ensures fewer { vec_len all.old ≤ vec_len all.new + 1 }
    ensures capacity { vec_capacity all.new ≡ vec_capacity all.old }
    ensures sizes { (n : ℕ) → AllByRecursion (HasBytes n) all.old.items → AllByRecursion (HasBytes n) all.new.items }
{
    if all.len() <= AT_HAND || count <= all[0].since().saturating_add(LONG) {
        return;
    }
    drop(all.remove(0));
}

/// Allocates a spare storage for sends of this kind. It counts as one that came back after `since` others.
fn new_spare(alloc: Global, kind: Room, since: u64) -> Result<Spare, AllocError>
    ensures { IfOk result (λ s. s.bytes ≡ storage_of kind) }
{
    let storage = Vec::with_capacity(alloc, kind.storage())?;
    Ok(Spare::new(storage, since))
}

/// Allocates storages until `all` has as many as the reserve. If an allocation fails, those that were allocated stay in `all`.
fn fill_up(alloc: Global, kind: Room, all: &mut Vec<Spare>, since: u64) -> Result<(), AllocError>
    requires { 256 ≤ vec_capacity all.old }
    // The storages after it, and when it may fail.
    ensures whole { OnOk result (reserve_of kind ≤ vec_len all.new) }
    ensures few { vec_len all.old ≤ reserve_of kind → vec_len all.new ≤ reserve_of kind }
    ensures many { reserve_of kind ≤ vec_len all.old → vec_len all.new ≡ vec_len all.old }
    ensures full { OnErr result (vec_len all.old < reserve_of kind) }
    // The frame, also after a failure.
    ensures least { vec_len all.old ≤ vec_len all.new }
    ensures capacity { vec_capacity all.new ≡ vec_capacity all.old }
    ensures sizes { AllByRecursion (HasBytes (storage_of kind)) all.old.items → AllByRecursion (HasBytes (storage_of kind)) all.new.items }
{
    let wanted = kind.reserve();
    'filling: while all.len() < wanted {
        let spare = new_spare(alloc, kind, since)?;
        all.push_reserved(spare);
    }
    Ok(())
}

impl Pool {
    /// Allocates the reserve, and the list of spare storages, so that keeping one never allocates.
    pub(crate) fn new(alloc: Global, kind: Room) -> Result<Pool, AllocError>
        ensures { IfOk result (λ p. p ≡ record { kind = kind; count = reserve_of kind }) }
    {
        let mut pool = Pool {
            kind,
            spares: Vec::with_capacity(alloc, MOST_SPARE)?,
            returned: 0,
        };
        pool.hold(alloc)?;
        Ok(pool)
    }

    /// Allocates storages until as many are spare as the reserve has. If an allocation fails, those that were allocated are spare.
    pub(crate) fn hold(&mut self, alloc: Global) -> Result<(), AllocError>
        // On success the reserve is spare, and more than it only if more was spare before; a pool that has the reserve is unchanged and never fails.
        ensures whole { OnOk result (reserve_of self.old.kind ≤ self.new.count) }
        ensures few { self.old.count ≤ reserve_of self.old.kind → self.new.count ≤ reserve_of self.old.kind }
        ensures many { reserve_of self.old.kind ≤ self.old.count → self.new ≡ self.old }
        ensures full { OnErr result (self.old.count < reserve_of self.old.kind) }
        // The frame, also after a failure: no spare storage is lost, and the kind stays.
        ensures least { self.old.count ≤ self.new.count }
        ensures kind { self.new.kind ≡ self.old.kind }
    {
        fill_up(alloc, self.kind, &mut self.spares, self.returned)
    }

    /// Frees spare storages, so that other allocations have their memory.
    pub(crate) fn release(&mut self)
        ensures left { self.new.count ≤ left_of self.old.kind }
        ensures few { self.old.count ≤ left_of self.old.kind → self.new ≡ self.old }
        ensures kind { self.new.kind ≡ self.old.kind }
    {
        self.spares.truncate(self.kind.left());
    }

    /// Frees the spare storages that are more than the reserve has.
    pub(crate) fn trim(&mut self)
        ensures most { self.new.count ≤ reserve_of self.old.kind }
        ensures few { self.old.count ≤ reserve_of self.old.kind → self.new ≡ self.old }
        ensures many { reserve_of self.old.kind ≤ self.old.count → reserve_of self.old.kind ≤ self.new.count }
        ensures kind { self.new.kind ≡ self.old.kind }
    {
        self.spares.truncate(self.kind.reserve());
    }

    /// Gives out the storage that came back last, if one is spare.
    pub(crate) fn take(&mut self) -> Option<Vec<u8>>
        ensures count { MatchOption result ((self.old.count ≡ 0) × (self.new.count ≡ 0)) (λ _. self.old.count ≡ self.new.count + 1) }
        ensures size { IfSome result (λ v. storage_of self.old.kind ≤ vec_capacity v) }
        ensures kind { self.new.kind ≡ self.old.kind }
    {
        let spare = self.spares.pop()?;
        Some(spare.into_storage())
    }

    /// Keeps a storage that came back, unless 256 are kept. Frees one that nobody took for long.
    pub(crate) fn keep(&mut self, storage: Vec<u8>)
        requires { storage_of self.old.kind ≤ vec_capacity storage }
        ensures back { ComesBack self.old.count self.new.count }
        ensures kind { self.new.kind ≡ self.old.kind }
    {
        self.returned = self.returned.saturating_add(1);
        free_unused(&mut self.spares, self.returned);
        if self.spares.len() >= MOST_SPARE {
            return;
        }
        self.spares
            .push_reserved(Spare::new(storage, self.returned));
    }
}
