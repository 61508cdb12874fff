//! Replaces names by indices. This is done once, when a topology is built.

ghost use Rattle.std.specs.Prelude.{◌≡◌, IfOk};
ghost use Rattle.exchange_graph.specs.Built.{AreNamed};
ghost use Rattle.exchange_graph.specs.Fans.{exchange_index, queue_index, end_of, ways_from};

use crate::ends::{Branch, End};
use model::{Binding, DeclaredQueue, Destination, Exchange};
use std::alloc::{AllocError, Global};
use std::marker::Model;
use topology_drafts::Names;

/// The lists of a topology, and indices from the names of its exchanges and queues.
pub struct NamedLists<'a> {
    exchanges: &'a [Exchange],
    queues: &'a [DeclaredQueue],
    bindings: &'a [Binding],
    exchange_names: &'a Names,
    queue_names: &'a Names,
}

/// Not derived: a derived drop is expanded, and proved again, in each function that drops the value.
impl<'a> Drop for NamedLists<'a> {
    fn drop(self) {
        let NamedLists {
            exchanges: _,
            queues: _,
            bindings: _,
            exchange_names: _,
            queue_names: _,
        } = self;
    }
}

impl<'a> Model for NamedLists<'a> {
    ghost use Rattle.model.specs.Topology.{Topology as Handed};
    ghost use Rattle.exchange_graph.specs.Built.{AreNamed};

    ghost Value = { Handed };

    ghost view = { λ l. record { exchanges = l.exchanges.now; queues = l.queues.now; bindings = l.bindings.now } };

    ghost invariant = { λ l. AreNamed l.exchanges.now l.queues.now l.exchange_names.now l.queue_names.now };
}

impl<'a> NamedLists<'a> {
    /// Returns the lists, in which exchanges and queues are looked up by `exchange_names` and `queue_names`.
    pub fn of(
        exchanges: &'a [Exchange],
        queues: &'a [DeclaredQueue],
        bindings: &'a [Binding],
        exchange_names: &'a Names,
        queue_names: &'a Names,
    ) -> NamedLists<'a>
        requires { AreNamed exchanges.now queues.now exchange_names.now queue_names.now }
        ensures { result ≡ record { exchanges = exchanges.entry.now; queues = queues.entry.now; bindings = bindings.entry.now } }
    {
        NamedLists {
            exchanges,
            queues,
            bindings,
            exchange_names,
            queue_names,
        }
    }

    /// The exchanges, in the order of the file.
    pub fn exchanges(&self) -> &[Exchange]
        ensures { result.now ≡ self.now.exchanges }
    {
        self.exchanges
    }

    /// Returns the index of the exchange `name`, or the number of exchanges if there is none.
    pub fn exchange_index(&self, name: &[u8]) -> usize
        ensures { result ≡ exchange_index self.now.exchanges name.now }
    {
        match self.exchange_names.index_of(name) {
            Some(place) => place,
            None => self.exchanges.len(),
        }
    }

    /// Returns the index of the queue `name`, or the number of queues if there is none.
    fn queue_index(&self, name: &[u8]) -> usize
        ensures { result ≡ queue_index self.now.queues name.now }
    {
        match self.queue_names.index_of(name) {
            Some(place) => place,
            None => self.queues.len(),
        }
    }

    /// Returns the destination `to` by its index.
    fn end_of(&self, to: &Destination) -> End
        ensures { result ≡ end_of self.now.exchanges self.now.queues to.now }
    {
        match to {
            Destination::Exchange(name) => End::Onward(self.exchange_index(name.as_bytes())),
            Destination::Queue(name) => End::Into(self.queue_index(name.as_bytes())),
        }
    }

    /// Returns the bindings whose source is the exchange `name`. Fails only if an allocation fails.
    pub fn ways_from(&self, alloc: Global, name: &[u8]) -> Result<Vec<Branch>, AllocError>
        ensures { IfOk result (λ ways. ways.items ≡ ways_from self.now.exchanges self.now.queues name.now self.now.bindings) }
    {
        let mut ways = Vec::new(alloc);
        for binding in self.bindings {
            if binding.source.as_bytes() == name {
                ways.push(Branch {
                    key: binding.key.clone()?,
                    end: self.end_of(&binding.to),
                })?;
            }
        }
        Ok(ways)
    }
}
