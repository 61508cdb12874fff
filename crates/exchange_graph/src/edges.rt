//! Single steps of a route, by names.

ghost use Rattle.std.specs.Prelude.{◌≡◌, Decides, IfOk};
ghost use Rattle.std.specs.List.{list_any};
ghost use Rattle.model.specs.Topology.{IsIn};
ghost use Rattle.exchange_graph.specs.declared.ends.End.TheVariants.{Onward, Into};
ghost use Rattle.exchange_graph.specs.Edges.{LeadsToQueue, LeadsOn, is_into, is_onward};

use crate::ends::End;
use crate::topologies::Topology;
use std::alloc::{AllocError, Global};

/// Returns whether one of `ends` is the exchange at index `place`.
fn any_onward(ends: &[End], place: usize) -> bool
    ensures { result ≡ list_any (λ e. is_onward place e) ends.now }
{
    ends.iter().any(|end| match end {
        End::Onward(at) => *at == place,
        End::Into(_) => false,
    })
}

/// Returns whether one of `ends` is the queue at index `place`.
fn any_into(ends: &[End], place: usize) -> bool
    ensures { result ≡ list_any (λ e. is_into place e) ends.now }
{
    ends.iter().any(|end| match end {
        End::Onward(_) => false,
        End::Into(at) => *at == place,
    })
}

impl Topology {
    /// Returns whether one step leads a message with `key` from `exchange` to the exchange `other`: a binding, or the alternate exchange if
    /// no binding lets the key pass. Fails only if an allocation fails.
    pub fn leads_on(
        &self,
        alloc: Global,
        exchange: &[u8],
        key: &[u8],
        other: &[u8],
    ) -> Result<bool, AllocError>
        ensures { IfOk result (λ yes. Decides yes (LeadsOn self.now key.now exchange.now other.now)) }
    {
        self.ghost_is_well_formed();
        let Some(from) = self.exchange_at(exchange) else {
            return Ok(false);
        };
        let Some(to) = self.exchange_at(other) else {
            return Ok(false);
        };
        let ends = self.steps(alloc, from, key)?;
        Ok(any_onward(ends.as_slice(), to))
    }

    /// Returns whether one step leads a message with `key` from `exchange` into `queue`: a binding, or the default exchange if the key is
    /// the queue's name. Fails only if an allocation fails.
    pub fn leads_in(
        &self,
        alloc: Global,
        exchange: &[u8],
        key: &[u8],
        queue: &[u8],
    ) -> Result<bool, AllocError>
        ensures { IfOk result (λ yes. Decides yes (LeadsToQueue self.now key.now exchange.now queue.now)) }
    {
        self.ghost_is_well_formed();
        let Some(to) = self.queue_at(queue) else {
            return Ok(false);
        };
        if exchange.is_empty() {
            return Ok(queue == key);
        }
        let Some(from) = self.exchange_at(exchange) else {
            return Ok(false);
        };
        let ends = self.steps(alloc, from, key)?;
        Ok(any_into(ends.as_slice(), to))
    }
}
