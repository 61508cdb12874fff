//! Routing with the routes that were taken last ([`Router`]).

use crate::kept::Kept;
use crate::routes::{Found, Route};
use crate::scratches::Scratch;
use crate::slots::{found, kept, looked_for, slot_of};
use crate::topologies::Topology;
use model::Text;
use std::alloc::{AllocError, Global};
use std::marker::Model;
use std::sync::Arc;

/// A topology with the routes that were taken last: at most 1,024, and at most 1 MiB. What it returns does not depend on which routes it keeps.
pub struct Router {
    topology: Topology,
    kept: Kept,
    scratch: Scratch,
}

/// Not derived: a derived drop is expanded, and proved again, in each function that drops the value.
impl Drop for Router {
    fn drop(self) {
        let Router {
            topology: _,
            kept: _,
            scratch: _,
        } = self;
    }
}

impl Model for Router {
    ghost use Rattle.model.specs.Topology.{Topology as Handed};
    ghost use Rattle.exchange_graph.specs.Routers.{KeepsRoutes};

    ghost Value = { Handed };

    ghost view = { λ r. r.topology };

    ghost invariant = { λ r. KeepsRoutes r.topology r.kept };
}

impl Router {
    ghost use Rattle.std.specs.Prelude.{◌≡◌, IfOk, IfSome};
    ghost use Rattle.std.specs.Arc.{arc_value};
    ghost use Rattle.exchange_graph.specs.Routers.{access_to, IsRoute};

    /// Returns a router of `topology` that keeps no route yet. Fails only if an allocation fails.
    pub fn new(alloc: Global, topology: Topology) -> Result<Router, AllocError>
        ensures { IfOk result (λ r. r ≡ topology) }
    {
        Ok(Router {
            topology,
            kept: Kept::new(alloc)?,
            scratch: Scratch::new(alloc),
        })
    }

    /// Returns whether clients may publish to `exchange`, and the route of `exchange` and `key` if it is kept. Never allocates.
    pub fn find(&self, exchange: &Text, key: &Text) -> Found<'_>
        ensures access { result.access ≡ access_to self.now exchange.now }
        ensures route { IfSome result.route (λ r. IsRoute self.now exchange.now key.now (arc_value r.now)) }
    {
        let index = slot_of(exchange.as_bytes(), key.as_bytes());
        found(&self.topology, &self.kept.slots[index], exchange, key)
    }

    /// Finds in the topology the route of a message that is sent to `exchange` under `key`, and keeps it, with both texts, if it fits.
    /// An exchange that does not exist leads nowhere; `""` is the default exchange. Fails only if an allocation fails.
    pub fn learn(
        &mut self,
        alloc: Global,
        exchange: &Text,
        key: &Text,
    ) -> Result<Arc<Route>, AllocError>
        ensures route { IfOk result (λ r. IsRoute self.old exchange.now key.now (arc_value r)) }
        ensures same { self.new ≡ self.old }
    {
        let route = looked_for(alloc, &self.topology, &mut self.scratch, exchange, key)?;
        let index = slot_of(exchange.as_bytes(), key.as_bytes());
        self.kept.keep(index, Arc::try_clone(&route)?);
        Ok(route)
    }

    /// Returns the route of `exchange` and `key` that is kept, or else learns it. Fails only if an allocation fails.
    pub fn route(
        &mut self,
        alloc: Global,
        exchange: &Text,
        key: &Text,
    ) -> Result<Arc<Route>, AllocError>
        ensures route { IfOk result (λ r. IsRoute self.old exchange.now key.now (arc_value r)) }
        ensures same { self.new ≡ self.old }
    {
        let index = slot_of(exchange.as_bytes(), key.as_bytes());
        match kept(&self.kept.slots[index], exchange.as_bytes(), key.as_bytes()) {
            Some(route) => Arc::try_clone(route),
            None => self.learn(alloc, exchange, key),
        }
    }

    /// Returns the topology that was handed in.
    pub fn topology(&self) -> &Topology
        ensures { result.now ≡ self.now }
    {
        &self.topology
    }
}
