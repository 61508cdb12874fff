//! What leads on from an exchange: its bindings, an index over them, and its alternate exchange. Start with [`Fan`].

ghost use Rattle.std.specs.Prelude.{◌≡◌, ◌<◌, All, length, IfOk, OnOk, map, option_map};
ghost use Rattle.model.specs.declared.topologies.ExchangeKind.TheVariants.{Topic};
ghost use Rattle.exchange_graph.specs.Fans.{
  ArePassing,
  LeadOn,
  ends_at,
  ends_of,
  exchange_index,
  fan_of,
  or_alternate,
  patterns_of,
};
ghost use Rattle.exchange_graph.specs.Keyed.{IsEven, ends_under};
ghost use Rattle.exchange_graph.specs.Found.{IsIndex, Indexes, kind_of};

use crate::ends::{Branch, End, KeyedEnds};
use crate::keyed::{ends_under, keyed};
use crate::places::NamedLists;
use model::{Exchange, ExchangeKind};
use std::alloc::{AllocError, Global};
use std::marker::Model;
use topic_match::{Matcher, Pattern, Trie};

/// How the bindings of an exchange that let a key pass are found.
#[derive(Drop)]
pub enum Index {
    /// For a direct exchange: the destinations by binding key.
    Keys(KeyedEnds),
    /// For a fanout exchange, whose bindings let each key pass.
    All,
    /// For a topic exchange: a trie of the patterns.
    Patterns(Trie),
}

/// The bindings of one exchange, an index over them, and the index of its alternate exchange.
#[derive(Drop)]
pub struct Fan {
    list: Vec<Branch>,
    index: Index,
    alternate: Option<usize>,
}

impl Model for Fan {
    ghost use Rattle.exchange_graph.specs.Fans.{Fan as Leading};
    ghost use Rattle.exchange_graph.specs.Found.{IsIndex, kind_of};

    ghost Value = { Leading };

    ghost view = { λ f. record { kind = kind_of f.index; list = f.list.items; alternate = f.alternate } };

    ghost invariant = { λ f. IsIndex f.list.items f.index };
}

/// Returns the binding keys of `ways` as topic patterns. Fails only if an allocation fails.
fn patterns_of(alloc: Global, ways: &[Branch]) -> Result<Vec<Pattern>, AllocError>
    ensures { IfOk result (λ found. found.items ≡ patterns_of ways.now) }
{
    let mut found = Vec::new(alloc);
    for way in ways {
        found.push(Pattern::of(alloc, way.key.as_bytes())?)?;
    }
    Ok(found)
}

/// Builds the index over `ways` for an exchange of kind `kind`. Fails only if an allocation fails.
fn index_of(alloc: Global, kind: ExchangeKind, ways: &[Branch]) -> Result<Index, AllocError>
    ensures { IfOk result (Indexes kind ways.now) }
{
    match kind {
        ExchangeKind::Direct => Ok(Index::Keys(keyed(alloc, ways)?)),
        ExchangeKind::Fanout => Ok(Index::All),
        ExchangeKind::Topic => Ok(Index::Patterns(Trie::new(alloc, patterns_of(alloc, ways)?)?)),
    }
}

/// Returns the index of the exchange's alternate exchange, or `None` if it has none.
fn alternate_of(lists: &NamedLists<'_>, exchange: &Exchange) -> Option<usize>
    ensures { result ≡ option_map (exchange_index lists.now.exchanges) exchange.now.alternate }
{
    match &exchange.alternate {
        Some(name) => Some(lists.exchange_index(name.as_bytes())),
        None => None,
    }
}

/// Returns what leads on from `exchange`. Fails only if an allocation fails.
pub fn fan_of(alloc: Global, lists: &NamedLists<'_>, exchange: &Exchange) -> Result<Fan, AllocError>
    ensures { IfOk result (λ made. made ≡ fan_of lists.now exchange.now) }
{
    let list = lists.ways_from(alloc, exchange.name.as_bytes())?;
    let index = index_of(alloc, exchange.kind, list.as_slice())?;
    Ok(Fan {
        list,
        index,
        alternate: alternate_of(lists, exchange),
    })
}

/// Returns what leads on from each exchange, in their order. Fails only if an allocation fails.
pub fn all_fans(alloc: Global, lists: &NamedLists<'_>) -> Result<Vec<Fan>, AllocError>
    ensures { IfOk result (λ made. made.items ≡ map (fan_of lists.now) lists.now.exchanges) }
{
    let mut made = Vec::new(alloc);
    for exchange in lists.exchanges() {
        made.push(fan_of(alloc, lists, exchange)?)?;
    }
    Ok(made)
}

/// Replaces `ends` by the destinations under `key`. Fails only if an allocation fails.
fn list_by_key(keyed: &KeyedEnds, key: &[u8], ends: &mut Vec<End>) -> Result<(), AllocError>
    requires { IsEven keyed.now }
    ensures { OnOk result (ends.new.items ≡ ends_under key.now keyed.now) }
{
    ends.clear();
    ends.extend_from_slice(ends_under(keyed, key))
}

/// Replaces `ends` by the destinations of all `ways`. Fails only if an allocation fails.
fn list_all(ways: &[Branch], ends: &mut Vec<End>) -> Result<(), AllocError>
    ensures { OnOk result (ends.new.items ≡ ends_of ways.now) }
{
    ends.clear();
    for way in ways {
        ends.push(way.end)?;
    }
    Ok(())
}

/// Replaces `ends` by the destinations of the bindings at the indices `places`. Fails only if an allocation fails.
fn list_at(ways: &[Branch], places: &[usize], ends: &mut Vec<End>) -> Result<(), AllocError>
    requires { All (λ i. i < length ways.now) places.now }
    ensures { OnOk result (ends.new.items ≡ ends_at ways.now places.now) }
{
    ends.clear();
    for place in places {
        ends.push(ways[*place].end)?;
    }
    Ok(())
}

/// Replaces `ends` by the destinations of the bindings whose pattern matches `key`. Fails only if an allocation fails.
fn list_by_topic(
    alloc: Global,
    topics: &Trie,
    ways: &[Branch],
    key: &[u8],
    ends: &mut Vec<End>,
) -> Result<(), AllocError>
    requires { topics.now ≡ patterns_of ways.now }
    ensures { OnOk result (ArePassing Topic key.now ways.now ends.new.items) }
{
    let places = topics.matches(alloc, key)?;
    list_at(ways, places.as_slice(), ends)
}

/// Replaces `ends` by the destinations of the bindings that let `key` pass. Fails only if an allocation fails.
fn list_passing(
    alloc: Global,
    index: &Index,
    ways: &[Branch],
    key: &[u8],
    ends: &mut Vec<End>,
) -> Result<(), AllocError>
    requires { IsIndex ways.now index.now }
    ensures { OnOk result (ArePassing (kind_of index.now) key.now ways.now ends.new.items) }
{
    match index {
        Index::Keys(keyed) => list_by_key(keyed, key, ends),
        Index::All => list_all(ways, ends),
        Index::Patterns(topics) => list_by_topic(alloc, topics, ways, key, ends),
    }
}

/// Appends the alternate exchange if `ends` is empty. Fails only if an allocation fails.
fn or_alternate(alternate: Option<usize>, ends: &mut Vec<End>) -> Result<(), AllocError>
    ensures { OnOk result (ends.new.items ≡ or_alternate alternate ends.old.items) }
{
    if ends.is_empty() {
        if let Some(place) = alternate {
            ends.push(End::Onward(place))?;
        }
    }
    Ok(())
}

impl Fan {
    /// Replaces `ends` by the destinations of the bindings that let `key` pass, or by the alternate exchange if there are none.
    /// Fails only if an allocation fails.
    pub fn lead_on(&self, alloc: Global, key: &[u8], ends: &mut Vec<End>) -> Result<(), AllocError>
        ensures { OnOk result (LeadOn key.now self.now ends.new.items) }
    {
        list_passing(alloc, &self.index, self.list.as_slice(), key, ends)?;
        or_alternate(self.alternate, ends)
    }
}
