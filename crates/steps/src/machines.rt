//! A machine on which calls fail as if an allocation failed.

use crate::wires::Fault;
use notes::Notes;
use runs::{Delivered, Machine, ReloadFault};
use std::alloc::{AllocError, Global};

/// The calls of a machine that may fail.
#[derive(Clone, Copy, PartialEq, Eq, Drop)]
pub(crate) enum Call {
    Open,
    Pump,
    Other,
}

/// Which calls fail, and how many were made.
#[derive(Clone, Copy, Drop)]
pub(crate) struct Refusals {
    /// The number of the call that fails, of all that may allocate, from 1; 0 if none does.
    pub(crate) number: u64,
    /// The kind of which each call fails.
    pub(crate) kind: Option<Call>,
    /// The number of calls that may allocate.
    pub(crate) calls: u64,
    /// The number of pumps among them.
    pub(crate) pumps: u64,
}

impl Refusals {
    /// Refuses the calls that `fault` names, if they are the machine's.
    pub(crate) fn new(fault: Fault<'_>) -> Refusals {
        let (number, kind) = match fault.calls {
            "call" => (fault.number, None),
            "opens" => (0, Some(Call::Open)),
            "pumps" => (0, Some(Call::Pump)),
            _ => (0, None),
        };
        Refusals {
            number,
            kind,
            calls: 0,
            pumps: 0,
        }
    }

    /// Returns whether the call with the number to be refused was made.
    pub(crate) fn has_refused(&self) -> bool {
        self.number > 0 && self.calls >= self.number
    }
}

/// Counts a call, and returns whether it fails.
fn is_refused(refusals: &mut Refusals, call: Call) -> bool {
    refusals.calls = refusals.calls.saturating_add(1);
    if call == Call::Pump {
        refusals.pumps = refusals.pumps.saturating_add(1);
    }
    refusals.calls == refusals.number || refusals.kind == Some(call)
}

/// A machine that passes every call on, except those that it refuses.
#[derive(Drop)]
pub(crate) struct Refusing<M: Machine> {
    pub(crate) machine: M,
    pub(crate) refusals: Refusals,
}

impl<M: Machine> Machine for Refusing<M> {
    type Setup = M::Setup;

    ghost use Rattle.std.specs.Prelude.{◌≡◌, IfOk};
    ghost use Rattle.model.specs.Headline.{IsSound};

    ghost world = { λ s. M.world s.machine };

    ghost config = { M.config };

    // every call may fail to allocate
    ghost lacks = { λ w n. Unit {0} };

    ghost left = { λ s. M.left s.machine };

    fn open(&mut self, alloc: Global) -> Result<Option<u64>, AllocError> {
        if is_refused(&mut self.refusals, Call::Open) {
            return Err(AllocError);
        }
        self.machine.open(alloc)
    }

    fn open_ready(&mut self, alloc: Global, k: u8) -> Result<Option<u64>, AllocError> {
        if is_refused(&mut self.refusals, Call::Open) {
            return Err(AllocError);
        }
        self.machine.open_ready(alloc, k)
    }

    fn feed(&mut self, alloc: Global, c: u64, bytes: &[u8]) -> Result<(), AllocError> {
        if is_refused(&mut self.refusals, Call::Other) {
            return Err(AllocError);
        }
        self.machine.feed(alloc, c, bytes)
    }

    fn turn(&mut self, alloc: Global, c: u64) -> Result<Option<Notes>, AllocError> {
        if is_refused(&mut self.refusals, Call::Other) {
            return Err(AllocError);
        }
        self.machine.turn(alloc, c)
    }

    fn pump(&mut self, alloc: Global) -> Result<Option<Delivered>, AllocError> {
        if is_refused(&mut self.refusals, Call::Pump) {
            return Err(AllocError);
        }
        self.machine.pump(alloc)
    }

    fn sent(&mut self, c: u64, n: u64) {
        self.machine.sent(c, n);
    }

    fn lose(&mut self, c: u64) {
        self.machine.lose(c);
    }

    fn output(&self, c: u64) -> &[u8] {
        self.machine.output(c)
    }

    fn is_over(&self, c: u64) -> bool {
        self.machine.is_over(c)
    }

    fn runs(&self, c: u64) -> bool {
        self.machine.runs(c)
    }

    fn lagged(&self) -> u64 {
        self.machine.lagged()
    }

    fn ghost_is_sound(&self) {
        self.machine.ghost_is_sound();
    }

    fn ghost_offers_sound(setup: &M::Setup)
        ensures { IsSound (M.config setup.now) }
    {
        M::ghost_offers_sound(setup);
    }

    fn copied(alloc: Global, setup: &M::Setup) -> Result<M::Setup, AllocError>
        ensures { IfOk result (λ copy. M.config copy ≡ M.config setup.now) }
    {
        M::copied(alloc, setup)
    }

    fn reload(&mut self, alloc: Global, setup: M::Setup) -> Result<(), ReloadFault> {
        self.machine.reload(alloc, setup)
    }

    fn put_in_force(&mut self, alloc: Global, setup: M::Setup) -> Result<(), AllocError> {
        self.machine.put_in_force(alloc, setup)
    }
}
