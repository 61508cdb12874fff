//! What leads on from each node. Start with `exits_of`.

ghost use Rattle.std.specs.Prelude.{◌≡◌, ◌<◌, ◌++◌, ◌∷◌, [], length, IfOk, OnOk};
ghost use Rattle.model.specs.Topology.{IsIn};
ghost use Rattle.state_routes.specs.Exits.{AddsAlternates, AddsGates, AreEmpty, AreExits, no_exit, with_alternate, with_gate};

use crate::gates::Gate;
use paths::Hop;
use std::alloc::{AllocError, Global};
use std::marker::Model;

/// The gates and the links to alternate exchanges that start at one node.
#[derive(Drop)]
pub struct Exits {
    gates: Vec<Gate>,
    alternates: Vec<Hop>,
}

impl Model for Exits {
    ghost use Rattle.state_routes.specs.Exits.{Exit};

    ghost Value = { Exit };

    ghost view = { λ e. record { gates = e.gates.items; alternates = e.alternates.items } };
}

impl Exits {
    fn none(alloc: Global) -> Exits
        ensures { result ≡ no_exit }
    {
        Exits {
            gates: Vec::new(alloc),
            alternates: Vec::new(alloc),
        }
    }

    fn add_gate(&mut self, gate: Gate) -> Result<(), AllocError>
        ensures { OnOk result (self.new ≡ record self.old { gates = self.old.gates ++ gate ∷ [] }) }
    {
        self.gates.push(gate)?;
        Ok(())
    }

    fn add_alternate(&mut self, link: Hop) -> Result<(), AllocError>
        ensures { OnOk result (self.new ≡ record self.old { alternates = self.old.alternates ++ link ∷ [] }) }
    {
        self.alternates.push(link)?;
        Ok(())
    }

    /// Returns the gates that start at the node.
    pub fn gates(&self) -> &[Gate]
        ensures { result.now ≡ self.now.gates }
    {
        self.gates.as_slice()
    }

    /// Returns the links to alternate exchanges that start at the node.
    pub fn alternates(&self) -> &[Hop]
        ensures { result.now ≡ self.now.alternates }
    {
        self.alternates.as_slice()
    }
}

/// Returns `count` empty exits, without gates and without links. Fails only if an allocation fails.
fn no_exits(alloc: Global, count: usize) -> Result<Vec<Exits>, AllocError>
    ensures { IfOk result (λ exits. AreEmpty count exits.items) }
{
    let mut exits = Vec::new(alloc);
    for place in 0..count {
        exits.push(Exits::none(alloc))?;
    }
    Ok(exits)
}

/// Adds `gate` to the exit of the node where it starts. Fails only if an allocation fails.
fn put_gate(exits: &mut Vec<Exits>, gate: Gate) -> Result<(), AllocError>
    requires { gate.link.from < length exits.old.items }
    ensures { OnOk result (exits.new.items ≡ with_gate gate exits.old.items) }
{
    exits[gate.link.from].add_gate(gate)
}

/// Adds `link`, to an alternate exchange, to the exit of the node where it starts. Fails only if an allocation fails.
fn put_alternate(exits: &mut Vec<Exits>, link: Hop) -> Result<(), AllocError>
    requires { link.from < length exits.old.items }
    ensures { OnOk result (exits.new.items ≡ with_alternate link exits.old.items) }
{
    exits[link.from].add_alternate(link)
}

/// Adds each of `gates` to the exit of the node where it starts. Fails only if an allocation fails.
fn put_gates(exits: &mut Vec<Exits>, gates: &[Gate]) -> Result<(), AllocError>
    requires { (g : Gate) → IsIn g gates.now → g.link.from < length exits.old.items }
    ensures { OnOk result (AddsGates gates.now exits.old.items exits.new.items) }
{
    for gate in gates {
        put_gate(exits, *gate)?;
    }
    Ok(())
}

/// Adds each of `alternates` to the exit of the node where it starts. Fails only if an allocation fails.
fn put_alternates(exits: &mut Vec<Exits>, alternates: &[Hop]) -> Result<(), AllocError>
    requires { (l : Hop) → IsIn l alternates.now → l.from < length exits.old.items }
    ensures { OnOk result (AddsAlternates alternates.now exits.old.items exits.new.items) }
{
    for link in alternates {
        put_alternate(exits, *link)?;
    }
    Ok(())
}

/// Returns the exits of `count` nodes: `gates` and links to alternate exchanges, each at the node where it starts. Fails only if an allocation fails.
pub fn exits_of(
    alloc: Global,
    count: usize,
    gates: &[Gate],
    alternates: &[Hop],
) -> Result<Vec<Exits>, AllocError>
    requires gates { (g : Gate) → IsIn g gates.now → g.link.from < count }
    requires alternates { (l : Hop) → IsIn l alternates.now → l.from < count }
    ensures { IfOk result (λ exits. AreExits gates.now alternates.now count exits.items) }
{
    let mut exits = no_exits(alloc, count)?;
    put_gates(&mut exits, gates)?;
    put_alternates(&mut exits, alternates)?;
    Ok(exits)
}
