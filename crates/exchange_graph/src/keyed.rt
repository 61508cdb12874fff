//! Indexes the bindings of a direct exchange by binding key. Start with `keyed`.

ghost use Rattle.std.specs.Prelude.{◌≡◌, ◌<◌, ◌∷◌, ◌++◌, [], length, IfOk, OnOk, slice_index_or, slice_set};
ghost use Rattle.model.specs.Topology.{IsIn};
ghost use Rattle.exchange_graph.specs.Keyed.{AreKeyed, IsEven, PutsUnder, ends_under};

use crate::ends::{Branch, End, Ends, KeyedEnds};
use std::alloc::{AllocError, Global};
use topology_drafts::Names;

/// Appends `end` to the list at index `place`. Fails only if an allocation fails.
fn push_at(lists: &mut Vec<Ends>, place: usize, end: End) -> Result<(), AllocError>
    requires { place < length lists.old.items }
    ensures { OnOk result (lists.new.items ≡ slice_set lists.old.items place (slice_index_or lists.old.items place [] ++ end ∷ [])) }
{
    lists[place].push(end)
}

/// Adds the new key `key` with `end`. Fails only if an allocation fails.
fn put_new(keyed: &mut KeyedEnds, alloc: Global, key: &[u8], end: End) -> Result<(), AllocError>
    requires even { IsEven keyed.old }
    requires is_new { IsIn key.now keyed.old.keys → ⊥ }
    ensures { OnOk result (PutsUnder key.now end keyed.old keyed.new) }
{
    let ends = Ends::of(alloc, end)?;
    keyed.lists.push(ends)?;
    keyed.keys.enter(alloc, key)?;
    Ok(())
}

/// Appends `end` to the destinations under `key`. Fails only if an allocation fails.
fn put(keyed: &mut KeyedEnds, alloc: Global, key: &[u8], end: End) -> Result<(), AllocError>
    requires { IsEven keyed.old }
    ensures { OnOk result (PutsUnder key.now end keyed.old keyed.new) }
{
    let Some(place) = keyed.keys.index_of(key) else {
        return put_new(keyed, alloc, key, end);
    };
    push_at(&mut keyed.lists, place, end)?;
    Ok(())
}

/// Returns the destinations of `ways` by binding key. Fails only if an allocation fails.
pub fn keyed(alloc: Global, ways: &[Branch]) -> Result<KeyedEnds, AllocError>
    ensures { IfOk result (AreKeyed ways.now) }
{
    let mut keyed = KeyedEnds {
        keys: Names::none(alloc),
        lists: Vec::new(alloc),
    };
    for way in ways {
        put(&mut keyed, alloc, way.key.as_bytes(), way.end)?;
    }
    Ok(keyed)
}

/// Returns the destinations of the bindings with this binding key. Never allocates.
pub fn ends_under<'a>(keyed: &'a KeyedEnds, key: &[u8]) -> &'a [End]
    requires { IsEven keyed.now }
    ensures { result.now ≡ ends_under key.now keyed.now }
{
    match keyed.keys.index_of(key) {
        Some(place) => keyed.lists[place].as_slice(),
        None => &[],
    }
}
