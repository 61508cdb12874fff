//! Finds a node from its parent and a token.
//! The parent and the token's mark give a first slot. Nodes that share it form a binary tree, in which the bits of both choose the branch,
//! so that no choice of words makes the way long.

ghost use Rattle.std.specs.Prelude.{◌≡◌, ◌+◌, ◌*◌, ◌<◌, ℕ, length, Decides, MatchOption, slice_index_or};
ghost use Rattle.topic_match.specs.Nodes.{
  AreLinked,
  IsChild,
  IsDeep,
  IsLast,
  IsSlotOf,
  bits_of,
  first_slot,
  heads_of,
  last_token,
  mixed,
  slot_behind,
};

use crate::nodes::Node;
use crate::patterns::Pattern;
use crate::steps::Step;

/// Returns a 32-bit hash of `bytes`.
pub fn mixed(bytes: &[u8]) -> u64
    ensures { result ≡ mixed 0 bytes.now }
{
    let mut number = 0;
    for byte in bytes {
        number = (number * 31 + u64::from(*byte)) % 4294967296;
    }
    number
}

/// Returns the slot, below `heads`, at which the search for the child of `parent` by a token with mark `mark` begins.
fn first_slot(heads: usize, parent: usize, mark: u64) -> usize
    requires { 0 < heads }
    ensures is { result ≡ first_slot heads parent mark }
    ensures within { result < heads }
{
    let number = (parent as u64 % 4294967296) * 31 + mark % 4294967296;
    number as usize % heads
}

/// Returns a node and a mark as one number. No two pairs have the same number if there are fewer than 2^32 nodes and marks are below 2^32.
fn bits_of(parent: usize, mark: u64) -> u64
    ensures { result ≡ bits_of parent mark }
{
    (parent as u64 % 4294967296) * 4294967296 + mark % 4294967296
}

/// Returns the slot behind `node` that the lowest of `bits` chooses.
fn slot_behind(heads: usize, node: usize, bits: u64) -> usize
    requires { heads + 2 * node + 1 < 18446744073709551616 }
    ensures { result ≡ slot_behind heads node bits }
{
    heads + 2 * node + (bits % 2) as usize
}

/// Returns how many of `slots` are first slots.
fn heads_of(nodes: &[Node], slots: &[usize]) -> usize
    requires { 2 * length nodes.now < length slots.now }
    ensures { result ≡ heads_of nodes.now slots.now }
{
    slots.len() - 2 * nodes.len()
}

/// Returns the node in slot `index`, or `None` if it is empty.
pub fn node_in(slots: &[usize], index: usize) -> Option<usize>
    requires { index < length slots.now }
    ensures { MatchOption result (slice_index_or slots.now index 0 ≡ 0) (λ c. (0 < c) × (c ≡ slice_index_or slots.now index 0)) }
{
    match slots[index] {
        0 => None,
        node => Some(node),
    }
}

/// Returns whether the beginning of `node` ends with `token`.
fn ends_with(patterns: &[Pattern], node: &Node, token: &Step<'_>) -> bool
    requires { IsDeep patterns.now node.now }
    ensures { Decides result (last_token patterns.now node.now ≡ token.now) }
{
    token.is_by(&patterns[node.pattern].tokens()[node.depth - 1])
}

/// Returns whether `node` has the parent `parent` and ends with `token`.
fn is_behind(patterns: &[Pattern], node: &Node, parent: usize, token: &Step<'_>) -> bool
    requires { IsDeep patterns.now node.now }
    ensures { Decides result (IsLast patterns.now node.now parent token.now) }
{
    node.parent == parent && ends_with(patterns, node, token)
}

/// Returns the slot of the child of `at` by `token`, or the empty slot for it if there is none. With fewer than 2^32 nodes, it passes at most 64 nodes
/// that have another parent than `at` or another mark than that of `token`.
pub fn slot_of(
    patterns: &[Pattern],
    nodes: &[Node],
    slots: &[usize],
    at: usize,
    token: &Step<'_>,
) -> usize
    requires { AreLinked patterns.now nodes.now slots.now }
    ensures { IsSlotOf patterns.now nodes.now slots.now at token.now result }
{
    let heads = heads_of(nodes, slots);
    let mut slot = first_slot(heads, at, token.mark());
    let mut bits = bits_of(at, token.mark());
    'tree: while let Some(node) = node_in(slots, slot) {
        if is_behind(patterns, &nodes[node], at, token) {
            return slot;
        }
        slot = slot_behind(heads, node, bits);
        bits /= 2;
    }
    slot
}

/// Returns the child of `at` by `token`, or `None` if there is none.
pub fn child(
    patterns: &[Pattern],
    nodes: &[Node],
    slots: &[usize],
    at: usize,
    token: &Step<'_>,
) -> Option<usize>
    requires { AreLinked patterns.now nodes.now slots.now }
    ensures { MatchOption result ((c : ℕ) → IsChild patterns.now nodes.now at token.now c → ⊥) (λ c. IsChild patterns.now nodes.now at token.now c) }
{
    node_in(slots, slot_of(patterns, nodes, slots, at, token))
}
