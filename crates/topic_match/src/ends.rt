//! Lists the patterns that end at each node, and collects the indices of those that match.

ghost use Rattle.std.specs.Prelude.{◌≡◌, ◌<◌, ◌++◌, ◌∷◌, ℕ, [], All, length, IfOk, OnOk, slice_index_or, slice_set};
ghost use Rattle.model.specs.Topology.{IsIn};
ghost use Rattle.topic_match.specs.Ends.{AreEnding, AreFound, AreRising, AreSound, indices_at};

use crate::indices::Indices;
use crate::nodes::Met;
use std::alloc::{AllocError, Global};

/// Appends `index` to the list of `node`. Fails only if an allocation fails.
fn add_at(lists: &mut Vec<Indices>, node: usize, index: usize) -> Result<(), AllocError>
    requires { node < length lists.old.items }
    ensures { OnOk result (lists.new.items ≡ slice_set lists.old.items node (slice_index_or lists.old.items node [] ++ index ∷ [])) }
{
    lists[node].add(index)
}

/// Returns `count` empty lists. Fails only if an allocation fails.
fn no_indices(alloc: Global, count: usize) -> Result<Vec<Indices>, AllocError>
    ensures size { IfOk result (λ lists. length lists.items ≡ count) }
    ensures none { IfOk result (λ lists. (c : ℕ) → slice_index_or lists.items c [] ≡ []) }
{
    let mut lists = Vec::new(alloc);
    for index in 0..count {
        lists.push(Indices::none(alloc))?;
    }
    Ok(lists)
}

/// Returns for each of `count` nodes the indices of the patterns that end at it.
/// `ends` has the node of each pattern. Fails only if an allocation fails.
pub fn ending(alloc: Global, count: usize, ends: &[usize]) -> Result<Vec<Indices>, AllocError>
    requires { (p : ℕ) → p < length ends.now → slice_index_or ends.now p 0 < count }
    ensures { IfOk result (λ lists. AreEnding ends.now count (length ends.now) lists.items) }
{
    let mut lists = no_indices(alloc, count)?;
    for pattern in 0..ends.len() {
        add_at(&mut lists, ends[pattern], pattern)?;
    }
    Ok(lists)
}

/// Appends the patterns that end at the node of `met` if its beginning matches `count` words. Fails only if an allocation fails.
fn add_indices(
    found: &mut Vec<usize>,
    lists: &[Indices],
    met: &Met,
    count: usize,
) -> Result<(), AllocError>
    requires node { met.now.node < length lists.now }
    requires count { count < length met.now.counts.items }
    ensures { OnOk result (found.new.items ≡ found.old.items ++ indices_at lists.now met.now count) }
{
    if met.counts[count] {
        found.extend_from_slice(lists[met.node].as_slice())?;
    }
    Ok(())
}

/// Returns the indices of the patterns that end at a node of `met` and match `count` words. Fails only if an allocation fails.
fn found_at(
    alloc: Global,
    lists: &[Indices],
    met: &[Met],
    count: usize,
) -> Result<Vec<usize>, AllocError>
    requires { AreSound lists.now met.now count }
    ensures { IfOk result (λ found. AreFound lists.now met.now count found.items) }
{
    let mut found = Vec::new(alloc);
    for at in 0..met.len() {
        add_indices(&mut found, lists, &met[at], count)?;
    }
    Ok(found)
}

/// Returns the indices of the patterns that end at a node of `met` and match `count` words, in increasing order. Fails only if an allocation fails.
pub fn rising_at(
    alloc: Global,
    lists: &[Indices],
    met: &[Met],
    count: usize,
) -> Result<Vec<usize>, AllocError>
    requires { AreSound lists.now met.now count }
    ensures { IfOk result (λ found. AreRising lists.now met.now count found.items) }
{
    let mut found = found_at(alloc, lists, met, count)?;
    found.sort()?;
    Ok(found)
}
