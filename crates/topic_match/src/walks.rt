//! Walks over the beginnings that match the first `n` words of a key for some `n`. Start with `walk`.

ghost use Rattle.std.specs.Prelude.{◌≡◌, ◌<◌, ◌≤◌, length, IfOk, IfSome, IfNone, OnOk};
ghost use Rattle.topic_match.specs.Counts.{AreCounts};
ghost use Rattle.topic_match.specs.Exits.{AreExits};
ghost use Rattle.topic_match.specs.Nodes.{AreLinked, beginning_at};
ghost use Rattle.topic_match.specs.Walks.{AreAddedFrom, AreSteps, IsBarren, IsStep};

use crate::children::child;
use crate::counts::{counts_after, has_some};
use crate::nodes::{Links, Met};
use crate::patterns::Pattern;
use crate::pieces::KeyWord;
use crate::steps::Step;
use std::alloc::{AllocError, Global};

/// Returns the child of `from` by the token `by` if its beginning matches the first `n` words for some `n`. Fails only if an allocation fails.
fn step(
    alloc: Global,
    patterns: &[Pattern],
    links: &Links<'_>,
    words: &[KeyWord<'_>],
    from: &Met,
    by: &Step<'_>,
) -> Result<Option<Met>, AllocError>
    // `from` is a node, with the numbers of first words that its beginning matches.
    requires linked { AreLinked patterns.now links.now.nodes.now links.now.slots.now }
    requires exits { AreExits patterns.now links.now.nodes.now (length links.now.nodes.now) links.now.exits.now }
    requires within { from.now.node < length links.now.nodes.now }
    requires counted { AreCounts (beginning_at patterns.now links.now.nodes.now from.now.node) words.now from.now.counts.items }
    // The result is the child of `from` by this token; or it is `None`, and no beginning that continues this way matches any first words.
    ensures none { IfOk result (λ o. IfNone o (IsBarren patterns.now links.now.nodes.now words.now from.now.node by.now)) }
    ensures next { IfOk result (λ o. IfSome o (λ next.
        IsStep patterns.now links.now.nodes.now words.now from.now.node by.now next.node next.counts.items)) }
{
    if !by.may_go(links.exits[from.node]) {
        return Ok(None);
    }
    let Some(node) = child(patterns, links.nodes, links.slots, from.node, by) else {
        return Ok(None);
    };
    let counts = counts_after(alloc, by, words, from.counts.as_slice())?;
    if !has_some(counts.as_slice()) {
        return Ok(None);
    }
    Ok(Some(Met { node, counts }))
}

/// Appends `from` and each of its descendants whose beginning matches the first `n` words for some `n`. Ends early once `met` has more than `most` nodes.
/// Fails only if an allocation fails.
pub fn walk(
    alloc: Global,
    patterns: &[Pattern],
    links: &Links<'_>,
    steps: &[Step<'_>],
    words: &[KeyWord<'_>],
    from: Met,
    most: usize,
    met: &mut Vec<Met>,
) -> Result<(), AllocError>
    // `from` is a node, with the numbers of first words that its beginning matches, and `steps` has each token that can match one of the words.
    requires linked { AreLinked patterns.now links.now.nodes.now links.now.slots.now }
    requires exits { AreExits patterns.now links.now.nodes.now (length links.now.nodes.now) links.now.exits.now }
    requires within { from.node < length links.now.nodes.now }
    requires counted { AreCounts (beginning_at patterns.now links.now.nodes.now from.node) words.now from.counts.items }
    requires taken { AreSteps steps.now words.now }
    // No node is removed. If the walk hasn't ended early, no node was appended twice, and each came with the numbers of first words that its beginning matches.
    ensures grown { OnOk result (length met.old.items ≤ length met.new.items) }
    ensures added { OnOk result (length met.new.items ≤ most → AreAddedFrom patterns.now links.now.nodes.now words.now from.node met.old.items met.new.items) }
{
    for place in 0..steps.len() {
        if met.len() > most {
            return Ok(());
        }
        let Some(next) = step(alloc, patterns, links, words, &from, &steps[place])? else {
            continue;
        };
        walk(alloc, patterns, links, steps, words, next, most, met)?;
    }
    met.push(from)?;
    Ok(())
}
