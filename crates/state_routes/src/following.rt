//! Finds the nodes that messages reach. Start with `reached_through`.

ghost use Rattle.std.specs.Prelude.{◌≡◌, ◌<◌, ◌∷◌, [], length, replicate, false, IfOk, OnOk};
ghost use Rattle.model.specs.Topology.{IsIn};
ghost use Rattle.state_routes.specs.Gates.{open_alternates, open_links};
ghost use Rattle.state_routes.specs.Exits.{IsBounded, LeadFrom, exit_at, open_from, open_through};
ghost use Rattle.state_routes.specs.Following.{Enters, Spreads};
ghost use Rattle.paths.specs.Reach.{AreReached};

use crate::exits::Exits;
use crate::gates::{Gate, all_block, passes};
use model::Mode;
use paths::{Hop, unmarked};
use std::alloc::{AllocError, Global};

/// Marks the node where `link` ends, and appends it to `rest`, the nodes still to visit, unless it is marked already.
/// Fails only if an allocation fails.
fn enter(link: Hop, marks: &mut [bool], rest: &mut Vec<usize>) -> Result<(), AllocError>
    requires { link.to < length marks.old }
    ensures { OnOk result (Enters (link ∷ []) marks.old rest.old.items marks.new rest.new.items) }
{
    if marks[link.to] {
        return Ok(());
    }
    rest.push(link.to)?;
    marks[link.to] = true;
    Ok(())
}

/// Enters the node where `gate` ends, if the gate lets a key pass. Fails only if an allocation fails.
fn enter_gate(
    mode: Mode,
    gate: Gate,
    accepted: &[bool],
    marks: &mut [bool],
    rest: &mut Vec<usize>,
) -> Result<(), AllocError>
    requires { gate.link.to < length marks.old }
    ensures { OnOk result (Enters (open_links mode (gate ∷ []) accepted.now) marks.old rest.old.items marks.new rest.new.items) }
{
    if marks[gate.link.to] {
        return Ok(());
    }
    if !passes(mode, gate.test, accepted) {
        return Ok(());
    }
    enter(gate.link, marks, rest)?;
    Ok(())
}

/// Enters the nodes where those of `gates` end that let a key pass. A gate to a marked node is not tested. Fails only if an allocation fails.
fn enter_open(
    mode: Mode,
    gates: &[Gate],
    accepted: &[bool],
    marks: &mut [bool],
    rest: &mut Vec<usize>,
) -> Result<(), AllocError>
    requires { (g : Gate) → IsIn g gates.now → g.link.to < length marks.old }
    ensures { OnOk result (Enters (open_links mode gates.now accepted.now) marks.old rest.old.items marks.new rest.new.items) }
{
    for gate in gates {
        enter_gate(mode, *gate, accepted, marks, rest)?;
    }
    Ok(())
}

/// Enters the alternate exchange where `link` ends, if the `gates` of its node all stop a key. Fails only if an allocation fails.
fn enter_alternate(
    mode: Mode,
    gates: &[Gate],
    link: Hop,
    accepted: &[bool],
    marks: &mut [bool],
    rest: &mut Vec<usize>,
) -> Result<(), AllocError>
    requires { link.to < length marks.old }
    ensures { OnOk result (Enters (open_alternates mode gates.now (link ∷ []) accepted.now) marks.old rest.old.items marks.new rest.new.items) }
{
    if marks[link.to] {
        return Ok(());
    }
    if !all_block(mode, gates, link.from, accepted) {
        return Ok(());
    }
    enter(link, marks, rest)?;
    Ok(())
}

/// Enters the alternate exchanges where those of `alternates` end from whose nodes the `gates` all stop a key. Fails only if an allocation fails.
fn enter_alternates(
    mode: Mode,
    gates: &[Gate],
    alternates: &[Hop],
    accepted: &[bool],
    marks: &mut [bool],
    rest: &mut Vec<usize>,
) -> Result<(), AllocError>
    requires { (l : Hop) → IsIn l alternates.now → l.to < length marks.old }
    ensures { OnOk result (Enters (open_alternates mode gates.now alternates.now accepted.now) marks.old rest.old.items marks.new rest.new.items) }
{
    for link in alternates {
        enter_alternate(mode, gates, *link, accepted, marks, rest)?;
    }
    Ok(())
}

/// Follows the links that are open from node `place`. Fails only if an allocation fails.
fn leave(
    mode: Mode,
    exits: &[Exits],
    accepted: &[bool],
    place: usize,
    marks: &mut [bool],
    rest: &mut Vec<usize>,
) -> Result<(), AllocError>
    requires place { place < length exits.now }
    requires size { length marks.old ≡ length exits.now }
    requires bounded { LeadFrom (length exits.now) place (exit_at exits.now place) }
    ensures { OnOk result (Enters (open_from mode exits.now place accepted.now) marks.old rest.old.items marks.new rest.new.items) }
{
    let exit = &exits[place];
    let gates = exit.gates();
    let alternates = exit.alternates();
    enter_open(mode, gates, accepted, marks, rest)?;
    enter_alternates(mode, gates, alternates, accepted, marks, rest)?;
    Ok(())
}

/// Follows all open links from the nodes in `rest`, and from those that they lead to. Fails only if an allocation fails.
fn follow(
    mode: Mode,
    exits: &[Exits],
    accepted: &[bool],
    start: usize,
    marks: &mut [bool],
    rest: &mut Vec<usize>,
) -> Result<(), AllocError>
    requires size { length marks.old ≡ length exits.now }
    requires bounded { IsBounded exits.now start }
    requires begun { Spreads (open_through mode exits.now accepted.now) start marks.old rest.old.items }
    ensures { OnOk result (AreReached (open_through mode exits.now accepted.now) (length exits.now) start marks.new) }
{
    'places: while let Some(place) = rest.pop() {
        leave(mode, exits, accepted, place, marks, rest)?;
    }
    Ok(())
}

/// Returns a mark for each node: whether open links lead there from `start`, which is marked itself. Fails only if an allocation fails.
pub fn reached_through(
    alloc: Global,
    mode: Mode,
    exits: &[Exits],
    accepted: &[bool],
    start: usize,
) -> Result<Vec<bool>, AllocError>
    requires { IsBounded exits.now start }
    ensures { IfOk result (λ marks. AreReached (open_through mode exits.now accepted.now) (length exits.now) start marks.items) }
{
    let mut marks = unmarked(alloc, exits.len())?;
    let mut rest = Vec::new(alloc);
    rest.push(start)?;
    marks[start] = true;
    follow(
        mode,
        exits,
        accepted,
        start,
        marks.as_mut_slice(),
        &mut rest,
    )?;
    Ok(marks)
}
