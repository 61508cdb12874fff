//! Reads guarantees files. Start with [`read_guarantees`].

ghost use Rattle.std.specs.Prelude.{◌≡◌, All, Decides, IfOk};
ghost use Rattle.model.specs.Topology.{IsIn, exchange_names, queue_names};
ghost use Rattle.serde_json.specs.View.{view};
ghost use Rattle.json_file.specs.Outcomes.{GivesItems, GivesValue};
ghost use Rattle.guarantees.specs.Stated.{excepts_at, mode_at};
ghost use Rattle.guarantees.specs.Causes.{AreFewEnough, ArePatterns, IsExchangeOrDefault, IsGuaranteeWorded, JudgesGuarantees, NamesAreThere, TakesOutFew};
ghost use Rattle.guarantees.specs.Reads.{OpensGuarantees, ReadsGuarantees};

use crate::promises::Guarantee;
use crate::stated::{StatedGuarantee, has_patterns};
use exchange_graph::Topology;
use json_file::{FileCause, FromValue, elements, entries, parse, text};
use model::{Mode, Text, limits};
use serde_json::Value;
use std::alloc::{AllocError, Global};
use topic_match::is_pattern;

/// Parses the member `mode`: `reaches` or `never`.
#[tactic(auto, unfolding(crate::specs::Stated::mode_at))]
fn mode(alloc: Global, value: &Value) -> Result<Mode, FileCause>
    ensures { GivesValue result (mode_at (view value.now)) }
{
    let name = text(alloc, value, "mode")?;
    if name.as_bytes() == b"reaches".as_slice() {
        return Ok(Mode::Reaches);
    }
    if name.as_bytes() == b"never".as_slice() {
        return Ok(Mode::Never);
    }
    Err(FileCause::Malformed)
}

/// Parses the patterns at the member `except`, which may be left out.
#[tactic(auto, unfolding(crate::specs::Stated::excepts_at))]
fn excepts(alloc: Global, value: &Value) -> Result<Vec<Text>, FileCause>
    ensures { GivesItems result (excepts_at (view value.now)) }
{
    match value.get("except") {
        None => Ok(Vec::new(alloc)),
        Some(found) => match found.as_array() {
            Some(array) => elements(alloc, array.as_slice()),
            None => Err(FileCause::Malformed),
        },
    }
}

impl FromValue for StatedGuarantee {
    ghost use Rattle.guarantees.specs.Stated.{guarantee_at};

    ghost states = { guarantee_at };

    #[tactic(auto, unfolding(crate::specs::Stated::guarantee_at))]
    fn read(alloc: Global, value: &Value) -> Result<StatedGuarantee, FileCause> {
        let mode = mode(alloc, value)?;
        let exchange = text(alloc, value, "exchange")?;
        let pattern = text(alloc, value, "pattern")?;
        let queue = text(alloc, value, "queue")?;
        let excepts = excepts(alloc, value)?;
        Ok(StatedGuarantee::new(mode, exchange, pattern, queue, excepts))
    }
}

/// Returns whether the topology has an exchange called `name`.
fn has_exchange(topology: &Topology, name: &[u8]) -> bool
    ensures { Decides result (IsIn name.now (exchange_names topology.now.exchanges)) }
{
    topology.exchange(name).is_some()
}

/// Returns whether `name` is the default exchange, or an exchange of the topology.
fn is_exchange(topology: &Topology, name: &[u8]) -> bool
    ensures { Decides result (IsExchangeOrDefault topology.now name.now) }
{
    name.is_empty() || has_exchange(topology, name)
}

/// Returns whether the topology has a queue called `name`.
fn is_queue(topology: &Topology, name: &[u8]) -> bool
    ensures { Decides result (IsIn name.now (queue_names topology.now.queues)) }
{
    match topology.queue_at(name) {
        Some(_) => true,
        None => false,
    }
}

/// Returns whether the exchange and the queue of `guarantee` exist.
fn is_there(topology: &Topology, guarantee: &StatedGuarantee) -> bool
    ensures { Decides result (NamesAreThere topology.now guarantee.now) }
{
    let exchange = is_exchange(topology, guarantee.exchange().as_bytes());
    let queue = is_queue(topology, guarantee.queue().as_bytes());
    exchange & queue
}

/// Returns whether the exchanges and the queues of all `guarantees` exist.
fn all_there(topology: &Topology, guarantees: &[StatedGuarantee]) -> bool
    ensures { Decides result (All (NamesAreThere topology.now) guarantees.now) }
{
    guarantees
        .iter()
        .all(|guarantee| is_there(topology, guarantee))
}

/// Returns whether the patterns and the names of `guarantee` are well-formed.
fn is_worded(guarantee: &StatedGuarantee) -> bool
    ensures { Decides result (IsGuaranteeWorded guarantee.now) }
{
    has_patterns(guarantee)
        && guarantee.exchange().len() <= limits::SHORT_BYTES
        && guarantee.queue().len() != 0
        && is_pattern(guarantee.queue().as_bytes())
}

/// Returns whether the patterns and the names of all `guarantees` are well-formed.
fn all_worded(guarantees: &[StatedGuarantee]) -> bool
    ensures { Decides result (All IsGuaranteeWorded guarantees.now) }
{
    guarantees.iter().all(|guarantee| is_worded(guarantee))
}

/// Returns whether `guarantee` has at most 16 `except` patterns.
fn takes_out_few(guarantee: &StatedGuarantee) -> bool
    ensures { Decides result (TakesOutFew guarantee.now) }
{
    guarantee.excepts().len() <= 16
}

/// Returns whether each of `guarantees` has at most 16 `except` patterns.
fn all_take_out_few(guarantees: &[StatedGuarantee]) -> bool
    ensures { Decides result (All TakesOutFew guarantees.now) }
{
    guarantees.iter().all(|guarantee| takes_out_few(guarantee))
}

/// Returns whether there are at most 64 guarantees, with at most 16 `except` patterns each.
fn are_few(guarantees: &[StatedGuarantee]) -> bool
    ensures { Decides result (AreFewEnough guarantees.now) }
{
    guarantees.len() <= 64 && all_take_out_few(guarantees)
}

/// Checks `guarantees` against `topology`. Fails with the lowest-numbered cause that applies to any of them.
fn check_guarantees(topology: &Topology, guarantees: &[StatedGuarantee]) -> Result<(), FileCause>
    ensures { JudgesGuarantees result topology.now guarantees.now }
{
    if !all_there(topology, guarantees) {
        return Err(FileCause::Absent);
    }
    if !all_worded(guarantees) {
        return Err(FileCause::Worded);
    }
    if !are_few(guarantees) {
        return Err(FileCause::TooMany);
    }
    Ok(())
}

/// Parses the guarantees of a file, without checking them.
fn open(alloc: Global, bytes: &[u8]) -> Result<Vec<StatedGuarantee>, FileCause>
    ensures { OpensGuarantees result bytes.now }
{
    let value = parse(alloc, bytes)?;
    let guarantees = entries::<StatedGuarantee>(alloc, &value, "guarantees")?;
    Ok(guarantees)
}

/// Turns stated guarantees, whose texts are patterns, into guarantees. Fails only if an allocation fails.
fn kept(alloc: Global, stated: Vec<StatedGuarantee>) -> Result<Vec<Guarantee>, AllocError>
    requires { All ArePatterns stated.items }
    ensures { IfOk result (λ found. found.items ≡ stated.items) }
{
    let mut found = Vec::new(alloc);
    for one in stated {
        found.push(Guarantee::of(one))?;
    }
    Ok(found)
}

/// Reads the guarantees that a file states for `topology`, in the file's order.
///
/// A file has at most 16,777,216 bytes and 64 guarantees, each with at most 16 `except` patterns. The modes are `reaches` and
/// `never`. Other members are ignored. Fails with the lowest-numbered cause that applies anywhere in the file, or with
/// [`FileCause::Memory`] if an allocation fails.
pub fn read_guarantees(
    alloc: Global,
    bytes: &[u8],
    topology: &Topology,
) -> Result<Vec<Guarantee>, FileCause>
    ensures { ReadsGuarantees result topology.now bytes.now }
{
    let stated = open(alloc, bytes)?;
    check_guarantees(topology, stated.as_slice())?;
    let guarantees = kept(alloc, stated)?;
    Ok(guarantees)
}
