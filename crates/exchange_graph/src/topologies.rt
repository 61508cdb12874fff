//! Valid topologies. Start with [`Topology::build`] and [`Topology::route`].

ghost use Rattle.std.specs.Prelude.{
  ◌≡◌,
  ◌<◌,
  All,
  length,
  slice_index_or,
  IfOk,
  OnOk,
  IfSome,
  IfNone,
  option_copied,
  find,
  position,
  Some,
};
ghost use Rattle.std.specs.Str.{bytes_eq};
ghost use Rattle.model.specs.Topology.{Topology as Handed, IsIn, IsWellFormed, exchange_names, queue_names};
ghost use Rattle.exchange_graph.specs.Targets.{AreTargets, AreVisited, names_at};
ghost use Rattle.topology_drafts.specs.Causes.{Builds, IsBuildable};
ghost use Rattle.exchange_graph.specs.Fans.{AreSteps};
ghost use Rattle.exchange_graph.specs.Marks.{exchange_name, queue_name};

use crate::ends::End;
use crate::fans::{Fan, all_fans};
use crate::marks::{Targets, set_indices};
use crate::places::NamedLists;
use crate::reach::{find, see};
use crate::scratches::Scratch;
use model::{Binding, DeclaredQueue, Exchange, Text};
use std::alloc::{AllocError, Global};
use std::marker::Model;
use topology_drafts::{BadTopology, Names, judge};

/// Exchanges, queues and bindings, each in the order of the file, prepared for routing.
pub struct Topology {
    exchanges: Vec<Exchange>,
    queues: Vec<DeclaredQueue>,
    bindings: Vec<Binding>,
    fans: Vec<Fan>,
    exchange_names: Names,
    queue_names: Names,
}

/// Not derived: a derived drop is expanded, and proved again, in each function that drops the value.
impl Drop for Topology {
    fn drop(self) {
        let Topology {
            exchanges: _,
            queues: _,
            bindings: _,
            fans: _,
            exchange_names: _,
            queue_names: _,
        } = self;
    }
}

impl Model for Topology {
    ghost use Rattle.model.specs.Topology.{Topology as Handed};
    ghost use Rattle.exchange_graph.specs.Built.{IsBuilt, declared_by};

    ghost Value = { Handed };

    ghost view = { λ t. record { exchanges = t.exchanges.items; queues = t.queues.items; bindings = t.bindings.items } };

    ghost invariant = { λ t. IsBuilt (declared_by t.exchanges.items t.queues.items t.bindings.items) t.fans.items t.exchange_names t.queue_names };
}

/// Returns copies of the names of the exchanges at the indices `places`. Fails only if an allocation fails.
fn names_at(
    alloc: Global,
    exchanges: &[Exchange],
    places: &[usize],
) -> Result<Vec<Text>, AllocError>
    requires { All (λ i. i < length exchanges.now) places.now }
    ensures { IfOk result (λ names. names.items ≡ names_at (exchange_names exchanges.now) places.now) }
{
    let mut names = Vec::new(alloc);
    for place in places {
        names.push(exchanges[*place].name.clone()?)?;
    }
    Ok(names)
}

impl Topology {
    /// Builds the topology of exactly these lists.
    /// Fails with the first cause for which they are refused, or with `BadTopology::Memory` if an allocation fails.
    #[tactic(auto, using(crate::proofs::Good::refused))]
    pub fn build(
        alloc: Global,
        exchanges: Vec<Exchange>,
        queues: Vec<DeclaredQueue>,
        bindings: Vec<Binding>,
    ) -> Result<Topology, BadTopology>
        ensures { Builds result (record { exchanges = exchanges.items; queues = queues.items; bindings = bindings.items }) }
    {
        match judge(
            alloc,
            exchanges.as_slice(),
            queues.as_slice(),
            bindings.as_slice(),
        ) {
            Ok(_) => {}
            Err(bad) => return Err(bad),
        }
        let topology = Topology::sound(alloc, exchanges, queues, bindings)?;
        Ok(topology)
    }

    /// Builds the topology of lists that are valid (`IsBuildable`). Fails only if an allocation fails.
    pub fn sound(
        alloc: Global,
        exchanges: Vec<Exchange>,
        queues: Vec<DeclaredQueue>,
        bindings: Vec<Binding>,
    ) -> Result<Topology, AllocError>
        requires { IsBuildable (record { exchanges = exchanges.items; queues = queues.items; bindings = bindings.items }) }
        ensures { IfOk result (λ t. t ≡ record { exchanges = exchanges.items; queues = queues.items; bindings = bindings.items }) }
    {
        let exchange_names = Names::distinct(alloc, exchanges.as_slice())?;
        let queue_names = Names::distinct(alloc, queues.as_slice())?;
        let fans = all_fans(
            alloc,
            &NamedLists::of(
                exchanges.as_slice(),
                queues.as_slice(),
                bindings.as_slice(),
                &exchange_names,
                &queue_names,
            ),
        )?;
        Ok(Topology {
            exchanges,
            queues,
            bindings,
            fans,
            exchange_names,
            queue_names,
        })
    }

    /// Shows that a topology is valid (`IsBuildable`). Does nothing at run time.
    pub fn ghost_is_buildable(&self)
        ensures { IsBuildable self.now }
    {
        let _ = &self.queues;
    }

    /// Shows what routing needs of each topology. Does nothing at run time.
    pub fn ghost_is_well_formed(&self)
        ensures { IsWellFormed self.now }
    {
        self.ghost_is_buildable();
    }

    /// Returns the next steps of a message with `key` from the exchange at `index`. Fails only if an allocation fails.
    pub fn steps(&self, alloc: Global, index: usize, key: &[u8]) -> Result<Vec<End>, AllocError>
        requires { index < length self.now.exchanges }
        ensures { IfOk result (λ ends. AreSteps self.now key.now (exchange_name self.now index) ends.items) }
    {
        let mut ends = Vec::new(alloc);
        self.find_steps(alloc, index, key, &mut ends)?;
        Ok(ends)
    }

    /// Replaces `ends` by the next steps of a message with `key` from the exchange at `index`. Fails only if an allocation fails.
    pub fn find_steps(
        &self,
        alloc: Global,
        index: usize,
        key: &[u8],
        ends: &mut Vec<End>,
    ) -> Result<(), AllocError>
        requires { index < length self.now.exchanges }
        ensures { OnOk result (AreSteps self.now key.now (exchange_name self.now index) ends.new.items) }
    {
        self.fans[index].lead_on(alloc, key, ends)
    }

    /// Returns the indices of the queues that a message sent to `exchange` under `key` is routed to, in the order of the file, each once.
    /// An exchange that doesn't exist leads nowhere; `""` is the default exchange. Fails only if an allocation fails.
    pub fn route(
        &self,
        alloc: Global,
        exchange: &[u8],
        key: &[u8],
    ) -> Result<Vec<usize>, AllocError>
        ensures { IfOk result (λ targets. AreTargets self.now exchange.now key.now targets.items) }
    {
        let mut scratch = Scratch::new(alloc);
        let targets = self.targets(alloc, &mut scratch, exchange, key)?;
        Ok(targets.into_vec()?)
    }

    /// Returns the same indices as `route`, using the buffers of `scratch`, whatever they contain. Fails only if an allocation fails.
    pub fn targets(
        &self,
        alloc: Global,
        scratch: &mut Scratch,
        exchange: &[u8],
        key: &[u8],
    ) -> Result<Targets, AllocError>
        ensures { IfOk result (λ targets. AreTargets self.now exchange.now key.now targets.items) }
    {
        find(self, alloc, scratch, exchange, key)?;
        set_indices(alloc, scratch.found.as_slice())
    }

    /// Returns the names of the exchanges that a message sent to `exchange` under `key` passes, in the order of the file, each once,
    /// `exchange` included. The default exchange `""` leads on to no exchange, so it passes only itself. An exchange that doesn't exist
    /// passes none. Fails only if an allocation fails.
    pub fn visited(
        &self,
        alloc: Global,
        exchange: &[u8],
        key: &[u8],
    ) -> Result<Vec<Text>, AllocError>
        ensures { IfOk result (λ visited. AreVisited self.now exchange.now key.now visited.items) }
    {
        self.ghost_is_well_formed();
        if exchange.is_empty() {
            return Ok(vec![in alloc; Text::empty()]?);
        }
        let mut scratch = Scratch::new(alloc);
        see(self, alloc, &mut scratch, exchange, key)?;
        let places = set_indices(alloc, scratch.seen.as_slice())?;
        names_at(alloc, self.exchanges.as_slice(), places.as_slice())
    }

    /// The exchanges, in the order of the file.
    pub fn exchanges(&self) -> &[Exchange]
        ensures { result.now ≡ self.now.exchanges }
    {
        self.exchanges.as_slice()
    }

    /// The queues, in the order of the file.
    pub fn queues(&self) -> &[DeclaredQueue]
        ensures { result.now ≡ self.now.queues }
    {
        self.queues.as_slice()
    }

    /// The bindings, in the order of the file.
    pub fn bindings(&self) -> &[Binding]
        ensures { result.now ≡ self.now.bindings }
    {
        self.bindings.as_slice()
    }

    /// Returns the exchange `name`, or `None` if there is none. The default exchange is not in the list.
    pub fn exchange(&self, name: &[u8]) -> Option<&Exchange>
        ensures { option_copied result ≡ find (λ x. bytes_eq x.name name.now) self.now.exchanges }
    {
        match self.exchange_at(name) {
            Some(place) => Some(&self.exchanges[place]),
            None => None,
        }
    }

    /// Returns the index of the exchange `name`, or `None` if there is none. The default exchange is not in the list.
    pub fn exchange_at(&self, name: &[u8]) -> Option<usize>
        ensures index { result ≡ position (λ x. bytes_eq x.name name.now) self.now.exchanges }
        ensures within { IfSome result (λ i. i < length self.now.exchanges) }
        ensures named { IfSome result (λ i. exchange_name self.now i ≡ name.now) }
        ensures absent { IfNone result (IsIn name.now (exchange_names self.now.exchanges) → ⊥) }
    {
        self.exchange_names.index_of(name)
    }

    /// Returns the index of the queue `name`, or `None` if there is none.
    pub fn queue_at(&self, name: &[u8]) -> Option<usize>
        ensures index { result ≡ position (λ q. bytes_eq q.name name.now) self.now.queues }
        ensures within { IfSome result (λ i. i < length self.now.queues) }
        ensures named { IfSome result (λ i. queue_name self.now i ≡ name.now) }
        ensures absent { IfNone result (IsIn name.now (queue_names self.now.queues) → ⊥) }
    {
        self.queue_names.index_of(name)
    }

    /// Returns the queue at `index`, which has to be below the number of queues.
    pub fn queue(&self, index: usize) -> &DeclaredQueue
        requires { index < length self.now.queues }
        ensures { result.now ≡ slice_index_or self.now.queues index result.now }
    {
        &self.queues[index]
    }
}
