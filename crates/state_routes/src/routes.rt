//! Decides whether a promise is kept in a state. Start with [`Routes`].

ghost use Rattle.std.specs.Prelude.{◌≡◌, IfOk, IfSome, Decides};
ghost use Rattle.model.specs.Positions.{FitsEach};
ghost use Rattle.state_routes.specs.Gates.{accepted};
ghost use Rattle.state_routes.specs.Exits.{IsBounded, open_through};
ghost use Rattle.paths.specs.Deaths.{AreDeaths};
ghost use Rattle.paths.specs.Reach.{Chain};
ghost use Rattle.state_routes.specs.Known.{DecidesPromise, IsKeptBy, IsKnown, LeadsBy, keeps};

use crate::deaths::all_gates;
use crate::exits::{Exits, exits_of};
use crate::following::reached_through;
use crate::nodes::{alternate_links, node};
use exchange_graph::Topology;
use model::Mode;
use paths::Deaths;
use std::alloc::{AllocError, Global};
use std::marker::Model;
use word_automata::{Letters, accepts};

/// Where messages go, depending on which tracked patterns accept their keys.
#[derive(Drop)]
pub struct Routes {
    mode: Mode,
    exits: Vec<Exits>,
    start: usize,
}

impl Model for Routes {
    ghost use Rattle.state_routes.specs.Known.{Leading};
    ghost use Rattle.state_routes.specs.Exits.{IsBounded};

    ghost Value = { Leading };

    ghost view = { λ r. record { mode = r.mode; exits = r.exits.items; start = r.start } };

    ghost invariant = { λ r. IsBounded r.exits.items r.start };
}

/// Returns for each pattern whether it accepts the words of `state`. Fails only if an allocation fails.
fn accepted(alloc: Global, letters: &Letters, state: &[u64]) -> Result<Vec<bool>, AllocError>
    requires { FitsEach letters.now state.now }
    ensures { IfOk result (λ found. found.items ≡ accepted letters.now state.now) }
{
    let mut found = Vec::new(alloc);
    for place in 0..letters.patterns().len() {
        found.push(accepts(state, letters, place))?;
    }
    Ok(found)
}

/// Returns whether open links lead from `start` to the guarantee's queue. Fails only if an allocation fails.
fn leads_there(
    alloc: Global,
    mode: Mode,
    exits: &[Exits],
    accepted: &[bool],
    start: usize,
) -> Result<bool, AllocError>
    requires { IsBounded exits.now start }
    ensures { IfOk result (λ yes. Decides yes (Chain (open_through mode exits.now accepted.now) start 0)) }
{
    let marks = reached_through(alloc, mode, exits, accepted, start)?;
    Ok(marks[0])
}

/// Returns whether a promise of mode `mode` is kept if messages do or don't `arrive`.
fn keeps(mode: Mode, arrive: bool) -> bool
    ensures { result ≡ keeps mode arrive }
{
    match mode {
        Mode::Reaches => arrive,
        Mode::Never => !arrive,
    }
}

impl Routes {
    /// Prepares the links of messages to `exchange`, as far as they matter to a promise of mode `mode` about `queue`.
    /// What dead letters reach is explored for a `never` unless `deaths` are given. Fails only if an allocation fails.
    pub fn new(
        alloc: Global,
        topology: &Topology,
        deaths: Option<&Deaths>,
        mode: Mode,
        exchange: &[u8],
        queue: &[u8],
        letters: &Letters,
    ) -> Result<Routes, AllocError>
        requires { IfSome deaths (λ d. AreDeaths topology.now d.now) }
        ensures { IfOk result (λ r. IsKnown topology.now mode exchange.now queue.now letters.now r) }
    {
        topology.ghost_is_well_formed();
        let exchanges = topology.exchanges();
        let gates = all_gates(alloc, topology, deaths, mode, queue, letters.patterns())?;
        let alternates = alternate_links(alloc, topology, exchanges)?;
        let count = exchanges.len() + 4;
        Ok(Routes {
            mode,
            exits: exits_of(alloc, count, gates.as_slice(), alternates.as_slice())?,
            start: node(topology, exchange),
        })
    }

    /// Returns whether links that are open in `state` lead to the queue. Fails only if an allocation fails.
    fn leads(&self, alloc: Global, letters: &Letters, state: &[u64]) -> Result<bool, AllocError>
        requires { FitsEach letters.now state.now }
        ensures { IfOk result (λ yes. Decides yes (LeadsBy letters.now self.now state.now)) }
    {
        let accepted = accepted(alloc, letters, state)?;
        let yes = leads_there(
            alloc,
            self.mode,
            self.exits.as_slice(),
            accepted.as_slice(),
            self.start,
        )?;
        Ok(yes)
    }

    /// Returns whether the promise is kept, by whether the links that are open in `state` lead to the queue. Fails only if an allocation fails.
    fn keeps(&self, alloc: Global, letters: &Letters, state: &[u64]) -> Result<bool, AllocError>
        requires { FitsEach letters.now state.now }
        ensures { IfOk result (λ yes. Decides yes (IsKeptBy letters.now self.now state.now)) }
    {
        let arrive = self.leads(alloc, letters, state)?;
        Ok(keeps(self.mode, arrive))
    }

    /// Returns whether the promise is kept for each key of `state`, as far as the tracked patterns decide.
    /// Fails only if an allocation fails.
    pub fn is_kept(
        &self,
        alloc: Global,
        letters: &Letters,
        state: &[u64],
    ) -> Result<bool, AllocError>
        requires { FitsEach letters.now state.now }
        ensures links { IfOk result (λ yes. Decides yes (IsKeptBy letters.now self.now state.now)) }
        ensures promise { IfOk result (λ yes. DecidesPromise letters.now self.now state.now yes) }
    {
        let yes = self.keeps(alloc, letters, state)?;
        Ok(yes)
    }
}
