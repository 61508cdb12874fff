//! Storages that no output holds: the reserve, and those of outputs that were emptied, for the next outputs that get bytes.

ghost use Rattle.std.specs.Prelude.{◌≡◌, ◌≢◌, ◌≤◌, ◌<◌, ◌+◌, [], length, vec_capacity, IfOk, IsOk, OnOk, OnErr};
ghost use Rattle.outputs.specs.Storages.{AreAtMost, IsReleased, IsWhole, KeepsReserve, MovesBytes, TakesIn, room_of, spare_for, storage_of, without_one};
ghost use Rattle.outputs.specs.Waiting.{HoldsNone};

use crate::Output;
use crate::pool::Pool;
use crate::room::{MOST_MOVED, Room};
use std::alloc::{AllocError, Global};
use std::marker::Model;
use std::mem;

/// Storages for outputs, of two sizes.
#[derive(Drop)]
pub struct Spares {
    alloc: Global,
    replies: Pool,
    contents: Pool,
}

impl Model for Spares {
    ghost use Rattle.std.specs.Prelude.{◌≡◌};
    ghost use Rattle.outputs.specs.Storages.{SpareCounts};
    ghost use Rattle.outputs.specs.declared.room.Room.TheVariants as room;

    ghost Value = { SpareCounts };

    ghost view = { λ s. record { replies = s.replies.count; contents = s.contents.count } };

    ghost invariant = { λ s. (s.replies.kind ≡ room.Reply) × (s.contents.kind ≡ room.Content) };
}

impl Spares {
    /// Allocates the reserve, 16 storages of 65,536 bytes and 8 of 1,125,536, and the lists of spare ones, so that keeping one never allocates.
    pub fn new(alloc: Global) -> Result<Spares, AllocError>
        ensures { IfOk result (λ s. s ≡ record { replies = 16; contents = 8 }) }
    {
        Ok(Spares {
            alloc,
            replies: Pool::new(alloc, Room::Reply)?,
            contents: Pool::new(alloc, Room::Content)?,
        })
    }

    /// Allocates storages until 16 small and 8 large ones are spare. Fails only if fewer were and an allocation fails. Those that were
    /// allocated are spare then.
    pub fn hold(&mut self) -> Result<(), AllocError>
        // The spare storages after it, and when it may fail.
        ensures whole { OnOk result (IsWhole self.new) }
        ensures full { OnErr result (IsWhole self.old → ⊥) }
        // No more are allocated than the reserve has, and none is freed.
        ensures many { IsWhole self.old → self.new ≡ self.old }
        ensures few { self.old.replies ≤ 16 → self.old.contents ≤ 8 → (self.new.replies ≤ 16) × (self.new.contents ≤ 8) }
        ensures least { (self.old.replies ≤ self.new.replies) × (self.old.contents ≤ self.new.contents) }
    {
        self.replies.hold(self.alloc)?;
        self.contents.hold(self.alloc)
    }

    /// Frees all spare storages but 8 small and 2 large ones, so that other allocations have their memory.
    pub fn release(&mut self)
        ensures left { IsReleased self.new }
        ensures few { IsReleased self.old → self.new ≡ self.old }
    {
        self.replies.release();
        self.contents.release();
    }

    /// Frees all spare storages that are more than the reserve has, 16 small and 8 large ones. The reserve itself stays.
    pub fn trim(&mut self)
        ensures most { AreAtMost 16 8 self.new }
        ensures keeps { KeepsReserve self.old self.new }
    {
        self.replies.trim();
        self.contents.trim();
    }

    /// Makes room in `output` for what `wanted` says. An output in which nothing waits gets a spare storage for that, or a new one if none
    /// is spare. One in which up to 65,536 bytes wait moves them to a large one; one with more grows. Fails only if there is less room, no
    /// such storage is spare, and the allocation fails.
    pub fn make_room(&mut self, output: &mut Output, wanted: Room) -> Result<(), AllocError>
        // The output: its bytes stay, and it has room. A new storage has the usual size.
        ensures bytes { output.new.bytes ≡ output.old.bytes }
        ensures ok { OnOk result (room_of wanted ≤ output.new.room) }
        ensures first { output.old.storage ≡ 0 → OnOk result (storage_of wanted ≤ output.new.room) }
        ensures same { room_of wanted ≤ output.old.room → (output.new ≡ output.old) × (self.new ≡ self.old) }
        // When it may fail: there is less room, and no storage is spare. Nothing has changed then.
        ensures full { OnErr result (output.old.room < room_of wanted) }
        ensures enough { output.old.bytes ≡ [] → 0 < spare_for wanted self.old → IsOk result }
        ensures moves { output.old.bytes ≢ [] → length output.old.bytes ≤ 65536 → 0 < self.old.contents → IsOk result }
        ensures err { OnErr result ((output.new ≡ output.old) × (self.new ≡ self.old)) }
        // The spare storages: one is given out before a new one is allocated, and the smaller one comes back.
        ensures spent { output.old.storage ≡ 0 → self.new ≡ without_one wanted self.old }
        ensures back { output.old.room < room_of wanted → length output.old.bytes ≤ 65536 → OnOk result (MovesBytes wanted output.old self.old self.new) }
        ensures grows { 65536 < length output.old.bytes → self.new ≡ self.old }
    {
        if output.room() >= wanted.bytes() {
            return Ok(());
        }
        let waiting = output.bytes().len();
        if waiting > MOST_MOVED {
            return output.reserve(wanted.bytes());
        }
        let storage = self.storage_for(wanted.for_bytes(waiting))?;
        let mut old = move_to(self.alloc, output, storage);
        self.take_lost(&mut old);
        Ok(())
    }

    /// Takes the storage of an empty output, and keeps it as a spare one. Frees it if 256 of its size are spare, or if it has another size than
    /// a new one. If the output has bytes nothing is taken. If more than 16 of its size are spare, frees one that nobody took for long.
    pub fn take_back(&mut self, output: &mut Output)
        // After the call an empty output holds no storage.
        ensures bytes { output.new.bytes ≡ output.old.bytes }
        ensures none { HoldsNone output.new }
        // What becomes of its storage.
        ensures back { output.old.bytes ≡ [] → TakesIn output.old.storage self.old self.new }
        // an output that has bytes is unchanged
        ensures waits { output.old.bytes ≢ [] → output.new ≡ output.old }
        ensures same { output.old.bytes ≢ [] → self.new ≡ self.old }
    {
        if output.has_none() || !output.bytes().is_empty() {
            return;
        }
        let storage = output.move_into(Vec::new(self.alloc));
        self.keep(storage);
    }

    /// Takes the storage of an output that was lost, and drops its bytes. Keeps or frees the storage as [`Spares::take_back`]
    /// does.
    pub fn take_lost(&mut self, output: &mut Output)
        ensures bytes { output.new.bytes ≡ [] }
        ensures none { output.new.storage ≡ 0 }
        ensures back { TakesIn output.old.storage self.old self.new }
    {
        let waiting = output.bytes().len();
        output.take(waiting);
        self.take_back(output);
    }

    /// Gives out a storage of this kind: a spare one, or a new one if none is spare.
    fn storage_for(&mut self, kind: Room) -> Result<Vec<u8>, AllocError>
        ensures size { IfOk result (λ v. storage_of kind ≤ vec_capacity v) }
        ensures enough { 0 < spare_for kind self.old → IsOk result }
        ensures spent { self.new ≡ without_one kind self.old }
        ensures err { OnErr result (self.new ≡ self.old) }
    {
        let spare = match kind {
            Room::Reply => self.replies.take(),
            Room::Content => self.contents.take(),
        };
        match spare {
            Some(storage) => Ok(storage),
            None => Vec::with_capacity(self.alloc, kind.storage()),
        }
    }

    /// Keeps a storage that came back among those of its size, or frees it.
    fn keep(&mut self, storage: Vec<u8>)
        ensures { TakesIn (vec_capacity storage) self.old self.new }
    {
        let size = storage.capacity();
        if size == Room::Reply.storage() {
            self.replies.keep(storage);
        } else if size == Room::Content.storage() {
            self.contents.keep(storage);
        }
    }
}

/// Moves the bytes of `output` to `storage`, which has capacity for them, and returns an output with its old storage.
fn move_to(alloc: Global, output: &mut Output, storage: Vec<u8>) -> Output
    requires { length output.old.bytes ≤ vec_capacity storage }
    ensures bytes { output.new.bytes ≡ output.old.bytes }
    ensures room { vec_capacity storage ≤ output.new.room + length output.old.bytes }
    ensures given { result ≡ output.old }
{
    let mut next = Output::new(alloc);
    drop(next.move_into(storage));
    next.put(output.bytes());
    mem::replace(output, next)
}
