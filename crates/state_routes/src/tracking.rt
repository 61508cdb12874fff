//! Collects the patterns that a certificate of a guarantee tracks. Start with `tracked_patterns`.

ghost use Rattle.std.specs.Prelude.{◌≡◌, ◌<◌, length, IfOk, OnOk};
ghost use Rattle.model.specs.Tracking.{IsTrackedList};
ghost use Rattle.state_routes.specs.Nodes.{count};
ghost use Rattle.state_routes.specs.Collected.{AreInReach, collected, keys_by_onto, keys_onto, met_onto, names_if, names_onto, topics_onto};
ghost use Rattle.state_routes.specs.Fitting.{HavePatterns};

use crate::deaths::{add_links, dying, unfixed_gates};
use crate::nodes::{any_links, node};
use crate::patterns::Patterns;
use exchange_graph::Topology;
use guarantees::Guarantee;
use model::{Binding, DeclaredQueue, Exchange, ExchangeKind, Mode, Text};
use paths::reached;
use std::alloc::{AllocError, Global};
use word_automata::Tracked;

/// Adds the binding keys of those of `bindings` whose source is the exchange `name`. Fails only if an allocation fails.
fn add_keys(
    alloc: Global,
    list: &mut Patterns,
    kind: ExchangeKind,
    name: &[u8],
    bindings: &[Binding],
) -> Result<(), AllocError>
    ensures { OnOk result (list.new ≡ keys_onto list.old kind name.now bindings.now) }
{
    for binding in bindings {
        if binding.source.as_bytes() == name {
            list.add(alloc, kind, &binding.key)?;
        }
    }
    Ok(())
}

/// Adds the binding keys of `exchange`, but none for a fanout exchange, which compares no key. Fails only if an allocation fails.
fn add_exchange(
    alloc: Global,
    list: &mut Patterns,
    exchange: &Exchange,
    bindings: &[Binding],
) -> Result<(), AllocError>
    ensures { OnOk result (list.new ≡ keys_by_onto list.old exchange.now.kind exchange.now.name bindings.now) }
{
    match exchange.kind {
        ExchangeKind::Direct => add_keys(
            alloc,
            list,
            ExchangeKind::Direct,
            exchange.name.as_bytes(),
            bindings,
        ),
        ExchangeKind::Topic => add_keys(
            alloc,
            list,
            ExchangeKind::Topic,
            exchange.name.as_bytes(),
            bindings,
        ),
        ExchangeKind::Fanout => Ok(()),
    }
}

/// Adds the names of `queues`. Fails only if an allocation fails.
fn add_names(alloc: Global, list: &mut Patterns, queues: &[DeclaredQueue]) -> Result<(), AllocError>
    ensures { OnOk result (list.new ≡ names_onto list.old queues.now) }
{
    for queue in queues {
        list.add(alloc, ExchangeKind::Direct, &queue.name)?;
    }
    Ok(())
}

/// Adds each of `texts` as a topic pattern. Fails only if an allocation fails.
fn add_topics(alloc: Global, list: &mut Patterns, texts: &[Text]) -> Result<(), AllocError>
    ensures { OnOk result (list.new ≡ topics_onto list.old texts.now) }
{
    for text in texts {
        list.add(alloc, ExchangeKind::Topic, text)?;
    }
    Ok(())
}

/// Adds the names of `queues` if the default exchange is `met`. Fails only if an allocation fails.
fn add_default(
    alloc: Global,
    list: &mut Patterns,
    queues: &[DeclaredQueue],
    met: bool,
) -> Result<(), AllocError>
    ensures { OnOk result (list.new ≡ names_if met list.old queues.now) }
{
    if met {
        return add_names(alloc, list, queues);
    }
    Ok(())
}

/// Adds the binding keys of each of `exchanges` whose node is marked. Fails only if an allocation fails.
fn add_met(
    alloc: Global,
    list: &mut Patterns,
    topology: &Topology,
    exchanges: &[Exchange],
    marks: &[bool],
) -> Result<(), AllocError>
    requires { length marks.now ≡ count topology.now }
    ensures { OnOk result (list.new ≡ met_onto topology.now marks.now list.old exchanges.now) }
{
    for exchange in exchanges {
        if marks[node(topology, exchange.name.as_bytes())] {
            add_exchange(alloc, list, exchange, topology.bindings())?;
        }
    }
    Ok(())
}

/// Returns a mark for each node: whether a message may reach it from `exchange` with its own key, or for a `never` also as a dead letter that keeps its key.
/// Fails only if an allocation fails.
pub fn met(
    alloc: Global,
    topology: &Topology,
    mode: Mode,
    exchange: &[u8],
    queue: &[u8],
) -> Result<Vec<bool>, AllocError>
    ensures { IfOk result (λ marks. AreInReach topology.now mode exchange.now queue.now marks.items) }
{
    let mut links = any_links(alloc, topology, queue)?;
    let deaths = unfixed_gates(alloc, topology, dying(mode, topology))?;
    add_links(&mut links, deaths.as_slice())?;
    let start = node(topology, exchange);
    let count = topology.exchanges().len() + 4;
    let marks = reached(alloc, links.as_slice(), count, start)?;
    Ok(marks)
}

/// Returns the pattern, the patterns of `excepts`, the queue names if the default exchange is marked, and the binding keys of each marked exchange.
/// Fails only if an allocation fails.
fn collected(
    alloc: Global,
    topology: &Topology,
    pattern: &Text,
    excepts: &[Text],
    marks: &[bool],
) -> Result<Vec<Tracked>, AllocError>
    requires { length marks.now ≡ count topology.now }
    ensures { IfOk result (λ list. list.items ≡ collected topology.now pattern.now excepts.now marks.now) }
{
    let mut list = Patterns::none(alloc);
    list.add(alloc, ExchangeKind::Topic, pattern)?;
    add_topics(alloc, &mut list, excepts)?;
    add_default(alloc, &mut list, topology.queues(), marks[2])?;
    add_met(alloc, &mut list, topology, topology.exchanges(), marks)?;
    Ok(list.into_list())
}

/// Returns the patterns that a certificate tracks: that of `guarantee`, those of its `except`, the queue names if the default exchange may be reached, and
/// the binding keys of each exchange that a covered message may reach; for a `never` also as a dead letter that keeps its key. Fails only if an allocation
/// fails.
pub fn tracked_patterns(
    alloc: Global,
    topology: &Topology,
    guarantee: &Guarantee,
) -> Result<Vec<Tracked>, AllocError>
    ensures tracked { IfOk result (λ list. IsTrackedList topology.now guarantee.now list.items) }
    ensures patterns { IfOk result (λ list. HavePatterns list.items) }
    ensures some { IfOk result (λ list. 0 < length list.items) }
{
    topology.ghost_is_well_formed();
    topology.ghost_is_buildable();
    guarantee.ghost_are_patterns();
    let mode = guarantee.mode();
    let exchange = guarantee.exchange().as_bytes();
    let marks = met(
        alloc,
        topology,
        mode,
        exchange,
        guarantee.queue().as_bytes(),
    )?;
    let list = collected(
        alloc,
        topology,
        guarantee.pattern(),
        guarantee.excepts(),
        marks.as_slice(),
    )?;
    Ok(list)
}
