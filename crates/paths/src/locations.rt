//! Where a message may be, and under which key.

ghost use Rattle.std.specs.Prelude.{◌≡◌, Decides, IfOk, IfSome, IfNone, []};
ghost use Rattle.model.specs.Topology.{IsIn, exchange_names};
ghost use Rattle.model.specs.Routing.{key_after};
ghost use Rattle.model.specs.Refutations.{name_of};
ghost use Rattle.model.specs.declared.topologies.Destination.TheVariants as destination;
ghost use Rattle.paths.specs.Locations.{IsFixedThere, IsSpotThere, end_spot, fixed_of, spot_place};

use exchange_graph::{End, Topology};
use model::Text;
use std::alloc::{AllocError, Global};

/// An exchange or a queue, by its index in the file.
#[derive(Clone, Copy, Drop)]
pub enum Spot {
    /// The default exchange, which no file has.
    Default,
    Exchange(usize),
    Queue(usize),
}

/// Where a message is, and which queue set its key.
#[derive(Clone, Copy, Drop)]
pub struct Location {
    pub spot: Spot,
    /// The index of the queue that set the message's key last, if one did.
    pub fixed: Option<usize>,
}

/// Returns the exchange `name`, if there is one.
pub fn exchange_spot(topology: &Topology, name: &[u8]) -> Option<Spot>
    ensures within { IfSome result (IsSpotThere topology.now) }
    ensures is { IfSome result (λ spot. spot_place topology.now spot ≡ destination.Exchange name.now) }
    ensures absent { IfNone result (IsIn name.now (exchange_names topology.now.exchanges) → ⊥) }
    ensures named { IfNone result (name.now ≡ [] → ⊥) }
{
    if name.is_empty() {
        return Some(Spot::Default);
    }
    match topology.exchange_at(name) {
        Some(place) => Some(Spot::Exchange(place)),
        None => None,
    }
}

/// Converts the end of an edge into a spot.
pub fn end_spot(end: End) -> Spot
    ensures { result ≡ end_spot end }
{
    match end {
        End::Onward(place) => Spot::Exchange(place),
        End::Into(place) => Spot::Queue(place),
    }
}

/// Returns the key of a message sent under `key`: the one that queue `fixed` has set, or `key` itself if no queue has set one.
pub fn key_at<'a>(topology: &'a Topology, key: &'a [u8], fixed: Option<usize>) -> &'a [u8]
    requires { IsFixedThere topology.now fixed }
    ensures { result.now ≡ key_after (fixed_of topology.now fixed) key.now }
{
    match fixed {
        Some(place) => match &topology.queue(place).dead_letter_key {
            Some(own) => own.as_bytes(),
            None => key,
        },
        None => key,
    }
}

/// Returns whether `spot` is the queue `name`.
pub fn is_queue(topology: &Topology, spot: Spot, name: &[u8]) -> bool
    requires { IsSpotThere topology.now spot }
    ensures { Decides result (spot_place topology.now spot ≡ destination.Queue name.now) }
{
    match spot {
        Spot::Default => false,
        Spot::Exchange(_) => false,
        Spot::Queue(place) => topology.queue(place).name.as_bytes() == name,
    }
}

/// Returns the name of an exchange or a queue. Fails only if the allocation fails.
pub fn name_at(alloc: Global, topology: &Topology, spot: Spot) -> Result<Text, AllocError>
    requires { IsSpotThere topology.now spot }
    ensures { IfOk result (λ name. name ≡ name_of (spot_place topology.now spot)) }
{
    match spot {
        Spot::Default => Text::from_slice(alloc, &[]),
        Spot::Exchange(place) => topology.exchanges()[place].name.clone(),
        Spot::Queue(place) => topology.queue(place).name.clone(),
    }
}
