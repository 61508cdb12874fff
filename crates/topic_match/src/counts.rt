//! Which numbers of first words of a key some tokens match.

ghost use Rattle.std.specs.Prelude.{◌≡◌, ◌+◌, ◌-◌, ◌<◌, ◌∷◌, length, IfOk, if◌then◌else◌, take, false};
ghost use Rattle.topic_match.specs.Counts.{CountsFollow, HasSome, trues};

use crate::pieces::KeyWord;
use crate::steps::Step;
use smallvec::SmallVec;
use std::alloc::{AllocError, Global};

/// For each number of words, from 0, whether some tokens match that many first words of a key. Up to 31 words need no allocation.
pub type Counts = SmallVec<bool, 32>;

/// Writes the counts of some tokens followed by `token` to `after`; `before` has the counts of those tokens alone.
fn write_after(token: &Step<'_>, words: &[KeyWord<'_>], before: &[bool], after: &mut [bool])
    requires before { length before.now ≡ length words.now + 1 }
    requires after { length after.old ≡ length words.now + 1 }
    ensures { CountsFollow token.now words.now before.now after.new }
{
    let mut was = token.matches_empty(before[0]);
    after[0] = was;
    for place in 0..words.len() {
        was = token.matches_after(&words[place], before[place], was, before[place + 1]);
        after[place + 1] = was;
    }
}

/// Returns the counts of some tokens followed by `*`; `before` has the counts of those tokens alone. Fails only if an allocation fails.
fn moved_on(alloc: Global, before: &[bool]) -> Result<Counts, AllocError>
    requires { 0 < length before.now }
    ensures { IfOk result (λ after. after.items ≡ false ∷ take (length before.now - 1) before.now) }
{
    let mut after = SmallVec::new(alloc);
    after.push(false)?;
    after.extend_from_slice(before.split_at(before.len() - 1).0)?;
    Ok(after)
}

/// Returns the counts of some tokens followed by `token`; `before` has the counts of those tokens alone. Fails only if an allocation fails.
pub fn counts_after(
    alloc: Global,
    token: &Step<'_>,
    words: &[KeyWord<'_>],
    before: &[bool],
) -> Result<Counts, AllocError>
    requires { length before.now ≡ length words.now + 1 }
    ensures { IfOk result (λ after. CountsFollow token.now words.now before.now after.items) }
{
    if token.is_one() {
        return moved_on(alloc, before);
    }
    let mut after = SmallVec::from_slice(alloc, before)?;
    write_after(token, words, before, after.as_mut_slice());
    Ok(after)
}

/// Returns whether one of `counts` is true.
pub fn has_some(counts: &[bool]) -> bool
    ensures { HasSome counts.now result }
{
    for place in 0..counts.len() {
        if counts[place] {
            return true;
        }
    }
    false
}

/// Returns `count`, or `count + 1` if `told` is set.
fn with_one(count: usize, told: bool) -> usize
    requires { count < 18446744073709551615 }
    ensures { result ≡ count + (if told then 1 else 0) }
{
    if told { count + 1 } else { count }
}

/// Returns how many of `counts` are true.
pub fn trues(counts: &[bool]) -> usize
    ensures { result ≡ trues counts.now }
{
    let mut count = 0;
    for told in counts {
        count = with_one(count, *told);
    }
    count
}
