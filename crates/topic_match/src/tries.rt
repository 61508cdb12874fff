//! The matcher that keeps its patterns as the tree of their beginnings.

ghost use Rattle.std.specs.Prelude.{◌≡◌, ◌≤◌, ◌<◌, [], None, length, IfOk, IfSome};
ghost use Rattle.topic_match.specs.Beginnings.{Begins, IsCounted};
ghost use Rattle.topic_match.specs.Counts.{AreCounts};
ghost use Rattle.topic_match.specs.Exits.{AreExits};
ghost use Rattle.topic_match.specs.Nodes.{AreLinked};
ghost use Rattle.topic_match.specs.Indices.{AreMatches};
ghost use Rattle.topic_match.specs.Walks.{AreMet, trues_in};

use crate::building::nodes_of;
use crate::counts::{Counts, trues};
use crate::ends::{ending, rising_at};
use crate::exits::exits_of;
use crate::indices::Indices;
use crate::matchers::Matcher;
use crate::nodes::{Exits, Links, Met, Node};
use crate::patterns::Pattern;
use crate::pieces::{KeyWord, words_in};
use crate::plain::matches_one_by_one;
use crate::steps::steps_of;
use crate::walks::walk;
use smallvec::SmallVec;
use std::alloc::{AllocError, Global};
use std::marker::Model;

/// The greatest number of patterns with which a key is compared one by one: a walk through their beginnings takes longer.
const FEW: usize = 16;

/// Returns the counts of the empty beginning, which matches only the empty key. Fails only if an allocation fails.
fn first_counts(alloc: Global, words: &[KeyWord<'_>]) -> Result<Counts, AllocError>
    ensures { IfOk result (λ counts. AreCounts [] words.now counts.items) }
{
    let mut counts = SmallVec::new(alloc);
    counts.push(true)?;
    for place in 0..words.len() {
        counts.push(false)?;
    }
    Ok(counts)
}

/// Returns the number of true entries in the counts of all nodes of `met`.
fn trues_in(met: &[Met]) -> u128
    ensures { result ≡ trues_in met.now }
{
    let mut count: u128 = 0;
    for each in met {
        count += trues(each.counts.as_slice()) as u128;
    }
    count
}

/// Returns the nodes whose beginnings match the first `n` words for some `n`. If there are more than `most`, returns only some of them, but more than `most`.
/// Fails only if an allocation fails.
fn met_by(
    alloc: Global,
    patterns: &[Pattern],
    links: &Links<'_>,
    words: &[KeyWord<'_>],
    most: usize,
) -> Result<Vec<Met>, AllocError>
    requires linked { AreLinked patterns.now links.now.nodes.now links.now.slots.now }
    requires exits { AreExits patterns.now links.now.nodes.now (length links.now.nodes.now) links.now.exits.now }
    ensures { IfOk result (λ met. length met.items ≤ most → AreMet patterns.now links.now.nodes.now words.now (Begins []) met.items) }
{
    let steps = steps_of(alloc, words)?;
    let root = Met {
        node: 0,
        counts: first_counts(alloc, words)?,
    };
    let mut met = Vec::new(alloc);
    walk(
        alloc,
        patterns,
        links,
        steps.as_slice(),
        words,
        root,
        most,
        &mut met,
    )?;
    Ok(met)
}

/// A matcher that keeps each beginning of its patterns once, and visits only those that match the first `n` words of a key for some `n`. If there are few
/// patterns, or many such beginnings, it compares the key with one pattern after another.
#[derive(Drop)]
pub struct Trie {
    patterns: Vec<Pattern>,
    nodes: Vec<Node>,
    slots: Vec<usize>,
    ends: Vec<usize>,
    indices: Vec<Indices>,
    exits: Vec<Exits>,
}

impl Model for Trie {
    ghost use Rattle.std.specs.Prelude.{List};
    ghost use Rattle.model.specs.declared.texts.Token.{Token};
    ghost use Rattle.topic_match.specs.Tries.{IsTrieWithExits};

    ghost Value = { List (List Token) };

    ghost view = { λ t. t.patterns.items };

    ghost invariant = { λ t. IsTrieWithExits t.patterns.items t.nodes.items t.slots.items t.ends.items t.indices.items t.exits.items };
}

impl Trie {
    /// Returns the indices of the patterns that match `key`, in increasing order; and how many pairs there are of a beginning of a pattern and a number `n`
    /// such that the beginning matches the first `n` words of the key. Fails only if an allocation fails.
    pub fn matches_counted(
        &self,
        alloc: Global,
        key: &[u8],
    ) -> Result<(Vec<usize>, u128), AllocError>
        ensures indices { IfOk result (λ found. AreMatches self.now key.now found.0.items) }
        ensures count { IfOk result (λ found. IsCounted self.now key.now found.1) }
    {
        match self.matches_within(alloc, key, usize::MAX)? {
            Some(found) => Ok(found),
            None => unreachable!(),
        }
    }

    /// Returns what [`Trie::matches_counted`] does, or `None` if a walk comes to more than `most` beginnings. Fails only if an allocation fails.
    fn matches_within(
        &self,
        alloc: Global,
        key: &[u8],
        most: usize,
    ) -> Result<Option<(Vec<usize>, u128)>, AllocError>
        ensures indices { IfOk result (λ within. IfSome within (λ found. AreMatches self.now key.now found.0.items)) }
        ensures count { IfOk result (λ within. IfSome within (λ found. IsCounted self.now key.now found.1)) }
        ensures none { IfOk result (λ within. within ≡ None → most < 18446744073709551615) }
    {
        if self.patterns.is_empty() {
            return Ok(Some((Vec::new(alloc), 0)));
        }
        let words = words_in(alloc, key)?;
        let met = met_by(
            alloc,
            self.patterns.as_slice(),
            &Links {
                nodes: self.nodes.as_slice(),
                slots: self.slots.as_slice(),
                exits: self.exits.as_slice(),
            },
            words.as_slice(),
            most,
        )?;
        if met.len() > most {
            return Ok(None);
        }
        let indices = rising_at(alloc, self.indices.as_slice(), met.as_slice(), words.len())?;
        Ok(Some((indices, trues_in(met.as_slice()))))
    }
}

impl Matcher for Trie {
    ghost listed = { λ p. p };

    fn new(alloc: Global, patterns: Vec<Pattern>) -> Result<Trie, AllocError> {
        let (nodes, slots, ends) = nodes_of(alloc, patterns.as_slice())?;
        let indices = ending(alloc, nodes.len(), ends.as_slice())?;
        let exits = exits_of(alloc, patterns.as_slice(), nodes.as_slice())?;
        Ok(Trie {
            patterns,
            nodes,
            slots,
            ends,
            indices,
            exits,
        })
    }

    fn matches(&self, alloc: Global, key: &[u8]) -> Result<Vec<usize>, AllocError> {
        let patterns = self.patterns.as_slice();
        if patterns.len() > FEW {
            if let Some((indices, _)) = self.matches_within(alloc, key, patterns.len() / 4)? {
                return Ok(indices);
            }
        }
        matches_one_by_one(alloc, patterns, key)
    }
}
