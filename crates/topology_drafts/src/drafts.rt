//! Checks a topology before it is built. Start with [`judge`].

ghost use Rattle.std.specs.Prelude.{◌≡◌, All, Decides};
ghost use Rattle.model.specs.Topology.{exchange_names};
ghost use Rattle.topology_drafts.specs.Causes.{
  AllJoin,
  AllWorded,
  AlternateIsThere,
  DeadLettersLead,
  IsSmall,
  Judges,
  KeysHaveExchanges,
  NamesAreDistinct,
  NamesLead,
};

use crate::bad::BadTopology;
use crate::checks::{
    all_dead_letters_lead, all_join, all_keyed, all_named, all_worded, alternates_are_there,
    keys_have_exchanges,
};
use crate::directory::Directory;
use model::{Binding, DeclaredQueue, Exchange};
use std::alloc::Global;
use std::marker::Model;

/// Exchanges, queues and bindings whose conditions can be checked one by one. It has indexes to be fast; if one can't be allocated, the results are the same.
pub struct Draft<'a> {
    exchanges: &'a [Exchange],
    queues: &'a [DeclaredQueue],
    bindings: &'a [Binding],
    exchange_names: Directory<'a, Exchange>,
    queue_names: Directory<'a, DeclaredQueue>,
}

/// Not derived: a derived drop is expanded, and proved again, in each function that drops the value.
impl<'a> Drop for Draft<'a> {
    fn drop(self) {
        let Draft {
            exchanges: _,
            queues: _,
            bindings: _,
            exchange_names: _,
            queue_names: _,
        } = self;
    }
}

impl<'a> Model for Draft<'a> {
    ghost use Rattle.model.specs.Topology.{Topology};
    ghost use Rattle.topology_drafts.specs.Drafts.{KnowsNames};

    ghost Value = { Topology };

    ghost view = { λ d. record { exchanges = d.exchanges.now; queues = d.queues.now; bindings = d.bindings.now } };

    ghost invariant = { λ d. KnowsNames d.exchange_names d.queue_names d.exchanges.now d.queues.now };
}

impl<'a> Draft<'a> {
    /// Returns the draft of these lists. Never fails.
    pub fn of(
        alloc: Global,
        exchanges: &'a [Exchange],
        queues: &'a [DeclaredQueue],
        bindings: &'a [Binding],
    ) -> Draft<'a>
        ensures { result ≡ record { exchanges = exchanges.entry.now; queues = queues.entry.now; bindings = bindings.entry.now } }
    {
        Draft {
            exchanges,
            queues,
            bindings,
            exchange_names: Directory::of(alloc, exchanges),
            queue_names: Directory::of(alloc, queues),
        }
    }

    /// Returns whether no two exchanges have the same name, and no two queues.
    pub fn is_distinct(&self) -> bool
        ensures { Decides result (NamesAreDistinct self.now) }
    {
        self.queue_names.is_distinct() && self.exchange_names.is_distinct()
    }

    /// Returns whether the sources and destinations of all bindings exist.
    pub fn joins(&self) -> bool
        ensures { Decides result (AllJoin self.now) }
    {
        all_join(&self.exchange_names, &self.queue_names, self.bindings)
    }

    /// Returns whether each queue with a dead-letter key has a dead-letter exchange.
    pub fn has_exchanges_for_keys(&self) -> bool
        ensures { Decides result (KeysHaveExchanges self.now) }
    {
        keys_have_exchanges(self.queues)
    }

    /// Returns whether all names and keys are well-formed.
    pub fn is_worded(&self) -> bool
        ensures { Decides result (AllWorded self.now) }
    {
        all_named(self.exchanges) && all_worded(self.queues) && all_keyed(self.bindings)
    }

    /// Returns whether there are at most 256 exchanges, 256 queues and 4,096 bindings.
    pub fn is_small(&self) -> bool
        ensures { Decides result (IsSmall self.now) }
    {
        self.exchanges.len() <= 256 && self.queues.len() <= 256 && self.bindings.len() <= 4096
    }

    /// Returns whether all alternate exchanges exist.
    fn has_alternates(&self) -> bool
        ensures { Decides result (All (AlternateIsThere (exchange_names self.now.exchanges)) self.now.exchanges) }
    {
        alternates_are_there(&self.exchange_names, self.exchanges)
    }

    /// Returns whether all dead-letter exchanges exist or are the default one.
    fn has_dead_letter_exchanges(&self) -> bool
        ensures { Decides result (All (DeadLettersLead (exchange_names self.now.exchanges)) self.now.queues) }
    {
        all_dead_letters_lead(&self.exchange_names, self.queues)
    }

    /// Returns whether all alternate and dead-letter exchanges exist; a dead-letter exchange may also be the default one.
    pub fn leads(&self) -> bool
        ensures { Decides result (NamesLead self.now) }
    {
        self.has_alternates() && self.has_dead_letter_exchanges()
    }

    /// Returns the first reason why the topology can't be built, if there is one. Never allocates.
    fn judge(&self) -> Result<(), BadTopology>
        ensures { Judges result self.now }
    {
        if !self.is_distinct() {
            return Err(BadTopology::Repeated);
        }
        if !self.joins() {
            return Err(BadTopology::Absent);
        }
        if !self.has_exchanges_for_keys() {
            return Err(BadTopology::Argument);
        }
        if !self.is_worded() {
            return Err(BadTopology::Worded);
        }
        if !self.is_small() {
            return Err(BadTopology::TooMany);
        }
        if !self.leads() {
            return Err(BadTopology::NoExchange);
        }
        Ok(())
    }
}

/// Returns the first reason why these lists can't be built as a topology, if there is one. Never returns [`BadTopology::Memory`]: if an allocation fails it
/// only takes longer.
pub fn judge(
    alloc: Global,
    exchanges: &[Exchange],
    queues: &[DeclaredQueue],
    bindings: &[Binding],
) -> Result<(), BadTopology>
    ensures { Judges result (record { exchanges = exchanges.now; queues = queues.now; bindings = bindings.now }) }
{
    let draft = Draft::of(alloc, exchanges, queues, bindings);
    draft.judge()
}
