//! Looks for a route: in the slot that the hash of its exchange and key names ([`found`]), or in the topology ([`looked_for`]).

ghost use Rattle.std.specs.Prelude.{◌≡◌, ◌<◌, IfOk, IfSome, IsTrue, option_copied};
ghost use Rattle.std.specs.Arc.{arc_value};
ghost use Rattle.model.specs.Topology.{Topology as Handed};
ghost use Rattle.exchange_graph.specs.Routers.{IsRight, IsRoute, access_at, access_to};

use crate::routes::{Access, Found, Route};
use crate::scratches::Scratch;
use crate::topologies::Topology;
use model::{Exchange, Text};
use std::alloc::{AllocError, Global};
use std::sync::Arc;

/// Mixes `bytes` into the hash `from`. Correctness does not depend on it.
fn mixed(from: u64, bytes: &[u8]) -> u64 {
    let mut mix = from;
    for byte in bytes {
        mix = (mix ^ u64::from(*byte)).wrapping_mul(0x100_0000_01b3);
    }
    mix
}

/// Returns the index of the slot for `exchange` and `key`, by their hash.
pub fn slot_of(exchange: &[u8], key: &[u8]) -> usize
    ensures { result < 1024 }
{
    let mix = mixed(mixed(0xcbf2_9ce4_8422_2325, exchange) ^ 255, key);
    ((mix ^ (mix >> 32)) % 1024) as usize
}

/// Returns whether clients may publish to `exchange`.
fn access_at(exchange: Option<&Exchange>) -> Access
    ensures { result ≡ access_at (option_copied exchange.entry) }
{
    match exchange {
        None => Access::Absent,
        Some(exchange) => {
            if exchange.internal {
                Access::Internal
            } else {
                Access::Open
            }
        }
    }
}

/// Returns whether clients may publish to the exchange with the name `exchange`; [`Access::Absent`] if it doesn't exist.
fn access_to(topology: &Topology, exchange: &[u8]) -> Access
    ensures { result ≡ access_to topology.now exchange.now }
{
    if exchange.is_empty() {
        Access::Open
    } else {
        access_at(topology.exchange(exchange))
    }
}

/// Returns whether `route` is that of `exchange` and `key`.
fn is_of(route: &Route, exchange: &[u8], key: &[u8]) -> bool
    ensures exchange { IsTrue result → route.now.exchange ≡ exchange.now }
    ensures key { IsTrue result → route.now.key ≡ key.now }
{
    route.key.as_bytes() == key && route.exchange.as_bytes() == exchange
}

/// Returns the route of `exchange` and `key` if it is the one in `slot`.
pub fn kept<'a>(slot: &'a Option<Arc<Route>>, exchange: &[u8], key: &[u8]) -> Option<&'a Arc<Route>>
    ensures { (t : Handed) → IsRight t slot.now → IfSome result (λ a. IsRoute t exchange.now key.now (arc_value a.now)) }
{
    match slot {
        None => None,
        Some(route) => {
            if is_of(route, exchange, key) {
                Some(route)
            } else {
                None
            }
        }
    }
}

/// Returns whether clients may publish to `exchange`, and the route of `exchange` and `key` if it is the one in `slot`.
pub fn found<'a>(
    topology: &Topology,
    slot: &'a Option<Arc<Route>>,
    exchange: &Text,
    key: &Text,
) -> Found<'a>
    requires { IsRight topology.now slot.now }
    ensures access { result.access ≡ access_to topology.now exchange.now }
    ensures route { IfSome result.route (λ a. IsRoute topology.now exchange.now key.now (arc_value a.now)) }
{
    match kept(slot, exchange.as_bytes(), key.as_bytes()) {
        Some(route) => Found {
            access: route.access,
            route: Some(route),
        },
        None => Found {
            access: access_to(topology, exchange.as_bytes()),
            route: None,
        },
    }
}

/// Looks for the route of `exchange` and `key` in the topology. Fails only if an allocation fails.
pub fn looked_for(
    alloc: Global,
    topology: &Topology,
    scratch: &mut Scratch,
    exchange: &Text,
    key: &Text,
) -> Result<Arc<Route>, AllocError>
    ensures { IfOk result (λ a. IsRoute topology.now exchange.now key.now (arc_value a)) }
{
    let targets = topology.targets(alloc, scratch, exchange.as_bytes(), key.as_bytes())?;
    let route = Route {
        exchange: exchange.clone()?,
        key: key.clone()?,
        access: access_to(topology, exchange.as_bytes()),
        targets,
    };
    match Arc::new(alloc, route) {
        Ok(route) => Ok(route),
        Err(_) => Err(AllocError),
    }
}
