//! Builds the nodes of the beginnings of patterns, each once. Start with `nodes_of`.

ghost use Rattle.std.specs.Prelude.{◌≡◌, ◌+◌, ◌<◌, ℕ, [], length, take, IfOk, OnOk, slice_index_or};
ghost use Rattle.model.specs.declared.texts.Token.TheVariants.{Any};
ghost use Rattle.topic_match.specs.Nodes.{AreLinked, IsSlotOf, beginning_at};
ghost use Rattle.topic_match.specs.Building.{AreGrown, EndAt, IsNodeOf};

use crate::children::{node_in, slot_of};
use crate::nodes::Node;
use crate::patterns::Pattern;
use crate::steps::Step;
use std::alloc::{AllocError, Global};

/// Adds the node of the first `depth + 1` tokens of pattern `pattern` as a child of `parent`, in `slot`. Fails only if an allocation fails.
fn add_node(
    patterns: &[Pattern],
    nodes: &mut Vec<Node>,
    slots: &mut Vec<usize>,
    slot: usize,
    parent: usize,
    pattern: usize,
    depth: usize,
) -> Result<usize, AllocError>
    // `parent` has the first `depth` tokens of the pattern, and the pattern has more than `depth`.
    requires linked { AreLinked patterns.now nodes.old.items slots.old.items }
    requires parent { parent < length nodes.old.items }
    requires pattern { pattern < length patterns.now }
    requires depth { depth < length (slice_index_or patterns.now pattern []) }
    requires fits { depth + 1 < 18446744073709551616 }
    requires before { beginning_at patterns.now nodes.old.items parent ≡ take depth (slice_index_or patterns.now pattern []) }
    // `slot` is the one for the node, and empty.
    requires slot { IsSlotOf patterns.now nodes.old.items slots.old.items parent (slice_index_or (slice_index_or patterns.now pattern []) depth Any) slot }
    requires empty { slice_index_or slots.old.items slot 0 ≡ 0 }
    // The nodes stay linked and keep their beginnings, and the result is the node of the first `depth + 1` tokens.
    ensures linked { OnOk result (AreLinked patterns.now nodes.new.items slots.new.items) }
    ensures grown { OnOk result (AreGrown patterns.now nodes.old.items nodes.new.items) }
    ensures made { IfOk result (λ c. IsNodeOf patterns.now nodes.new.items pattern (depth + 1) c) }
{
    let node = nodes.len();
    nodes.push(Node {
        parent,
        pattern,
        depth: depth + 1,
    })?;
    slots.push(0)?;
    slots.push(0)?;
    slots[slot] = node;
    Ok(node)
}

/// Returns the node of the first `depth + 1` tokens of pattern `pattern`. Adds it as a child of `parent` if there is none yet. Fails only if an allocation
/// fails.
fn node_behind(
    patterns: &[Pattern],
    nodes: &mut Vec<Node>,
    slots: &mut Vec<usize>,
    parent: usize,
    pattern: usize,
    depth: usize,
) -> Result<usize, AllocError>
    // `parent` has the first `depth` tokens of the pattern, and the pattern has more than `depth`.
    requires linked { AreLinked patterns.now nodes.old.items slots.old.items }
    requires parent { parent < length nodes.old.items }
    requires pattern { pattern < length patterns.now }
    requires depth { depth < length (slice_index_or patterns.now pattern []) }
    requires before { beginning_at patterns.now nodes.old.items parent ≡ take depth (slice_index_or patterns.now pattern []) }
    // The nodes stay linked and keep their beginnings, and the result is the node of the first `depth + 1` tokens.
    ensures linked { OnOk result (AreLinked patterns.now nodes.new.items slots.new.items) }
    ensures grown { OnOk result (AreGrown patterns.now nodes.old.items nodes.new.items) }
    ensures made { IfOk result (λ c. IsNodeOf patterns.now nodes.new.items pattern (depth + 1) c) }
{
    let token = &patterns[pattern].tokens()[depth];
    let slot = slot_of(
        patterns,
        nodes.as_slice(),
        slots.as_slice(),
        parent,
        &Step::by(token),
    );
    if let Some(node) = node_in(slots.as_slice(), slot) {
        return Ok(node);
    }
    add_node(patterns, nodes, slots, slot, parent, pattern, depth)
}

/// Returns the node of the whole pattern `pattern`. Adds it and those before it if they are missing. Fails only if an allocation fails.
fn node_of(
    patterns: &[Pattern],
    nodes: &mut Vec<Node>,
    slots: &mut Vec<usize>,
    pattern: usize,
) -> Result<usize, AllocError>
    requires linked { AreLinked patterns.now nodes.old.items slots.old.items }
    requires pattern { pattern < length patterns.now }
    ensures linked { OnOk result (AreLinked patterns.now nodes.new.items slots.new.items) }
    ensures grown { OnOk result (AreGrown patterns.now nodes.old.items nodes.new.items) }
    ensures made { IfOk result (λ c. (c < length nodes.new.items) × (beginning_at patterns.now nodes.new.items c ≡ slice_index_or patterns.now pattern [])) }
{
    let mut node = 0;
    for depth in 0..patterns[pattern].tokens().len() {
        node = node_behind(patterns, nodes, slots, node, pattern, depth)?;
    }
    Ok(node)
}

/// Returns the number of slots to begin with: one first slot more than there are tokens, and two behind the root.
fn first_slots(patterns: &[Pattern]) -> usize
    ensures { 2 < result }
{
    let mut count: usize = 3;
    for pattern in patterns {
        count = count.saturating_add(pattern.tokens().len());
    }
    count
}

/// Returns the nodes of `patterns`, their slots, and the node at which each pattern ends. Fails only if an allocation fails.
pub fn nodes_of(
    alloc: Global,
    patterns: &[Pattern],
) -> Result<(Vec<Node>, Vec<usize>, Vec<usize>), AllocError>
    ensures linked { IfOk result (λ made. AreLinked patterns.now made.0.items made.1.items) }
    ensures ends { IfOk result (λ made. EndAt patterns.now made.0.items (length patterns.now) made.2.items) }
{
    let mut nodes = Vec::new(alloc);
    nodes.push(Node {
        parent: 0,
        pattern: 0,
        depth: 0,
    })?;
    let mut slots = vec![in alloc; 0; first_slots(patterns)]?;
    let mut ends = Vec::new(alloc);
    for pattern in 0..patterns.len() {
        let node = node_of(patterns, &mut nodes, &mut slots, pattern)?;
        ends.push(node)?;
    }
    Ok((nodes, slots, ends))
}
