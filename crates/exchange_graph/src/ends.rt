//! Where bindings lead, by index.

ghost use Rattle.std.specs.Prelude.{◌≡◌, ◌∷◌, ◌++◌, [], IfOk, OnOk};

use model::Text;
use std::alloc::{AllocError, Global};
use std::marker::Model;
use topology_drafts::Names;

/// The destination of a binding, by its index in the list of exchanges or of queues.
#[derive(Clone, Copy, Drop)]
pub enum End {
    /// The exchange at this index.
    Onward(usize),
    /// The queue at this index.
    Into(usize),
}

/// A binding without its source.
#[derive(Drop)]
pub struct Branch {
    pub key: Text,
    pub end: End,
}

/// The destinations of the bindings with one binding key.
#[derive(Drop)]
pub struct Ends {
    list: Vec<End>,
}

impl Model for Ends {
    ghost use Rattle.std.specs.Prelude.{List};
    ghost use Rattle.exchange_graph.specs.declared.ends.End.{End};

    ghost Value = { List End };

    ghost view = { λ e. e.list.items };
}

impl Ends {
    /// Returns a list of `end` alone. Fails only if an allocation fails.
    pub fn of(alloc: Global, end: End) -> Result<Ends, AllocError>
        ensures { IfOk result (λ made. made ≡ end ∷ []) }
    {
        let mut list = Vec::new(alloc);
        list.push(end)?;
        Ok(Ends { list })
    }

    /// Appends `end`. Fails only if an allocation fails.
    pub fn push(&mut self, end: End) -> Result<(), AllocError>
        ensures { OnOk result (self.new ≡ self.old ++ end ∷ []) }
    {
        self.list.push(end)?;
        Ok(())
    }

    pub fn as_slice(&self) -> &[End]
        ensures { result.now ≡ self.now }
    {
        self.list.as_slice()
    }
}

/// The destinations of bindings by binding key, each key once.
#[derive(Drop)]
pub struct KeyedEnds {
    pub keys: Names,
    pub lists: Vec<Ends>,
}
