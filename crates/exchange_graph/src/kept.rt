//! The routes that are kept, at most 1,024 and at most 1 MiB of them ([`Kept::keep`]).

ghost use Rattle.std.specs.Prelude.{◌≡◌, ◌<◌, ◌-◌, ◌^◌, All, IfOk, None, Some, min, replicate, slice_set};
ghost use Rattle.model.specs.Topology.{Topology as Handed};
ghost use Rattle.exchange_graph.specs.Routers.{IsBounded, IsRight, KeepsRoutes, slot_bytes};

use crate::routes::Route;
use std::alloc::{AllocError, Global};
use std::sync::Arc;

/// The most bytes that all routes have together, as [`Kept::bytes`] counts them.
const MOST_BYTES: usize = 1_048_576;

/// Routes, each in the slot for its exchange and key.
pub struct Kept {
    /// 1,024 slots.
    pub slots: Vec<Option<Arc<Route>>>,
    /// The bytes of all routes: their names, and 16 for each queue that they lead to.
    pub bytes: usize,
    /// The index of the slot that is emptied next, modulo 1,024.
    pub hand: u16,
}

/// Not derived: a derived drop is expanded, and proved again, in each function that drops the value.
impl Drop for Kept {
    fn drop(self) {
        let Kept {
            slots: _,
            bytes: _,
            hand: _,
        } = self;
    }
}

/// Returns `count` empty slots.
fn empty_slots(alloc: Global, count: usize) -> Result<Vec<Option<Arc<Route>>>, AllocError>
    ensures { IfOk result (λ slots. slots.items ≡ replicate count None) }
{
    let mut slots = Vec::new(alloc);
    slots.reserve_exact(count)?;
    for _ in 0..count {
        slots.push(None)?;
    }
    Ok(slots)
}

/// Returns the bytes of the route in `slot`, or `usize::MAX` if it has more.
fn slot_bytes(slot: &Option<Arc<Route>>) -> usize
    ensures { result ≡ min (slot_bytes slot.now) (2 ^ 64 - 1) }
{
    match slot {
        None => 0,
        Some(route) => {
            let names = route.exchange.len().saturating_add(route.key.len());
            names.saturating_add(route.targets.len().saturating_mul(16))
        }
    }
}

impl Kept {
    /// Returns 1,024 empty slots. Fails only if the allocation fails.
    pub fn new(alloc: Global) -> Result<Kept, AllocError>
        ensures { (t : Handed) → IfOk result (λ kept. KeepsRoutes t kept) }
    {
        Ok(Kept {
            slots: empty_slots(alloc, 1024)?,
            bytes: 0,
            hand: 0,
        })
    }

    /// Empties slot `index`.
    fn forget(&mut self, index: usize)
        requires index { index < 1024 }
        requires bounded { IsBounded self.old }
        ensures bounded { IsBounded self.new }
        ensures emptied { self.new.slots.items ≡ slice_set self.old.slots.items index None }
    {
        self.bytes -= slot_bytes(&self.slots[index]);
        self.slots[index] = None;
    }

    /// Empties one slot, the next one in turn, so that routes that are no longer taken make room.
    fn forget_next(&mut self)
        requires { IsBounded self.old }
        ensures bounded { IsBounded self.new }
        ensures right { (t : Handed) → All (IsRight t) self.old.slots.items → All (IsRight t) self.new.slots.items }
    {
        self.forget(usize::from(self.hand % 1024));
        self.hand = self.hand.wrapping_add(1);
    }

    /// Puts `route` into slot `index`. If all routes together would then take more than 1 MiB, `route` is dropped instead: slot `index` is left empty,
    /// and another slot, the next one in turn, is emptied. Never allocates.
    pub fn keep(&mut self, index: usize, route: Arc<Route>)
        requires index { index < 1024 }
        requires bounded { IsBounded self.old }
        ensures { (t : Handed) → KeepsRoutes t self.old → IsRight t (Some route) → KeepsRoutes t self.new }
    {
        self.forget(index);
        let slot = Some(route);
        let bytes = slot_bytes(&slot);
        if bytes <= MOST_BYTES - self.bytes {
            self.bytes += bytes;
            self.slots[index] = slot;
        } else {
            self.forget_next();
        }
    }
}
