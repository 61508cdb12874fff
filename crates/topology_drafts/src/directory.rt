//! Looks up exchanges and queues by name: [`Names`] is an index, [`Directory`] works also if an index can't be allocated.

ghost use Rattle.std.specs.Prelude.{◌≡◌, ◌<◌, [], List, ℕ, length, Decides, IfOk, IfSome, MatchOption, OnErr, map, position};
ghost use Rattle.std.specs.Str.{bytes_eq};
ghost use Rattle.model.specs.Topology.{AreDistinct, IsIn};
ghost use Rattle.topology_drafts.specs.Naming.{AreNames, EntersName};

use indexmap::IndexSet;
use model::{DeclaredQueue, Exchange};
use std::alloc::{AllocError, Global};
use std::marker::Model;

/// An entry of a list that has a name.
pub trait Named {
    ghost named: { Self → List ℕ };

    fn name(&self) -> &[u8]
        ensures { result.now ≡ named self.now };
}

impl Named for Exchange {
    ghost named = { λ x. x.name };

    fn name(&self) -> &[u8] {
        self.name.as_bytes()
    }
}

impl Named for DeclaredQueue {
    ghost named = { λ q. q.name };

    fn name(&self) -> &[u8] {
        self.name.as_bytes()
    }
}

/// Distinct names in insertion order, with an index from name to position.
pub struct Names {
    set: IndexSet<Vec<u8>>,
}

/// Not derived: a derived drop is expanded, and proved again, in each function that drops the value.
impl Drop for Names {
    fn drop(self) {
        let Names { set: _ } = self;
    }
}

impl Model for Names {
    ghost use Rattle.std.specs.Prelude.{List, ℕ, map};

    ghost Value = { List (List ℕ) };

    ghost view = { λ n. map (λ k. k.items) n.set.keys };
}

impl Names {
    /// Returns an empty list of names.
    pub fn none(alloc: Global) -> Names
        ensures { result ≡ [] }
    {
        Names {
            set: IndexSet::new(alloc),
        }
    }

    /// Adds `name` after the others, unless it is in the list already. Returns whether it was new. Fails only if an allocation fails; nothing has changed
    /// then.
    pub fn enter(&mut self, alloc: Global, name: &[u8]) -> Result<bool, AllocError>
        ensures entered { IfOk result (λ new. EntersName name.now self.old self.new new) }
        ensures same { OnErr result (self.new ≡ self.old) }
    {
        let key = name.to_vec(alloc)?;
        let new = self.set.insert(key)?;
        Ok(new)
    }

    /// Returns the names of `entries` in order, or `None` if two of them have the same name. Fails only if an allocation fails.
    pub fn of<N: Named>(alloc: Global, entries: &[N]) -> Result<Option<Names>, AllocError>
        ensures { IfOk result (λ o. MatchOption o (AreDistinct (map N.named entries.now) → ⊥) (λ names. AreNames names (map N.named entries.now))) }
    {
        let mut names = Names::none(alloc);
        for entry in entries {
            let is_new = names.enter(alloc, entry.name())?;
            if !is_new {
                return Ok(None);
            }
        }
        Ok(Some(names))
    }

    /// Returns the names of `entries`, which are distinct, in order. Fails only if an allocation fails.
    pub fn distinct<N: Named>(alloc: Global, entries: &[N]) -> Result<Names, AllocError>
        requires { AreDistinct (map N.named entries.now) }
        ensures { IfOk result (λ names. names ≡ map N.named entries.now) }
    {
        match Names::of(alloc, entries)? {
            Some(names) => Ok(names),
            None => unreachable!(),
        }
    }

    /// Returns the index of `name`, from 0, or `None` if it is not in the list.
    pub fn index_of(&self, name: &[u8]) -> Option<usize>
        ensures index { result ≡ position (λ k. bytes_eq name.now k) self.now }
        ensures within { IfSome result (λ i. i < length self.now) }
    {
        self.set.get_index_of(name)
    }

    /// Returns whether `name` is in the list.
    pub fn has(&self, name: &[u8]) -> bool
        ensures { Decides result (IsIn name.now self.now) }
    {
        self.set.contains(name)
    }
}

/// Returns whether one of `entries` is called `name`, by going over them.
fn is_listed<N: Named>(entries: &[N], name: &[u8]) -> bool
    ensures { Decides result (IsIn name.now (map N.named entries.now)) }
{
    let mut rest = entries;
    'names: while let Some((first, others)) = rest.split_first() {
        if first.name() == name {
            return true;
        }
        rest = others;
    }
    false
}

/// Returns whether the names of `entries` are distinct, by comparing each pair.
fn are_distinct<N: Named>(entries: &[N]) -> bool
    ensures { Decides result (AreDistinct (map N.named entries.now)) }
{
    let mut rest = entries;
    'names: while let Some((first, others)) = rest.split_first() {
        if is_listed(others, first.name()) {
            return false;
        }
        rest = others;
    }
    true
}

/// The names of a list. They are looked up by an index, or by going over the list if an allocation for the index failed.
pub struct Directory<'a, N: Named> {
    entries: &'a [N],
    index: Option<Names>,
    distinct: bool,
}

/// Not derived: a derived drop is expanded, and proved again, in each function that drops the value.
impl<'a, N: Named> Drop for Directory<'a, N> {
    fn drop(self) {
        let Directory {
            entries: _,
            index: _,
            distinct: _,
        } = self;
    }
}

impl<'a, N: Named> Model for Directory<'a, N> {
    ghost use Rattle.std.specs.Prelude.{List, ℕ, map};
    ghost use Rattle.topology_drafts.specs.Naming.{IsIndexed};

    ghost Value = { List (List ℕ) };

    ghost view = { λ d. map N.named d.entries.now };

    ghost invariant = { λ d. IsIndexed d.index d.distinct (map N.named d.entries.now) };
}

impl<'a, N: Named> Directory<'a, N> {
    /// Returns the directory of `entries`. Never fails: if the index can't be allocated, calls take longer.
    pub fn of(alloc: Global, entries: &'a [N]) -> Directory<'a, N>
        ensures { result ≡ map N.named entries.entry.now }
    {
        match Names::of(alloc, entries) {
            Ok(Some(names)) => Directory {
                entries,
                index: Some(names),
                distinct: true,
            },
            Ok(None) => Directory {
                entries,
                index: None,
                distinct: false,
            },
            Err(_) => Directory {
                entries,
                index: None,
                distinct: are_distinct(entries),
            },
        }
    }

    /// Returns whether the names are distinct.
    pub fn is_distinct(&self) -> bool
        ensures { Decides result (AreDistinct self.now) }
    {
        self.distinct
    }

    /// Returns whether `name` is one of the names.
    pub fn has(&self, name: &[u8]) -> bool
        ensures { Decides result (IsIn name.now self.now) }
    {
        match &self.index {
            Some(names) => names.has(name),
            None => is_listed(self.entries, name),
        }
    }
}
