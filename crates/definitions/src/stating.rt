//! Builds what the entries of a file set up: a topology and its users.

ghost use Rattle.std.specs.Prelude.{◌≡◌, All, IfOk, IsSome, MatchOption, map};
ghost use Rattle.topology_drafts.specs.Causes.{IsBuildable};
ghost use Rattle.definitions.specs.File.{file_of};
ghost use Rattle.definitions.specs.States.{hash_of, of_36, destination_of, topology_of, user_of};
ghost use Rattle.definitions.specs.Hashed.{AreHashed};

use crate::causes::kind_named;
use crate::document::{BindingEntry, Document, ExchangeEntry, QueueEntry, UserEntry};
use base64::DecodeAllocError;
use base64::engine::general_purpose::STANDARD;
use exchange_graph::Topology;
use model::{Binding, DeclaredQueue, Destination, Exchange, ExchangeKind, Text, User};
use std::alloc::{AllocError, Global};
use std::marker::Model;
use topology_drafts::Draft;

/// Copies a text, if there is one. Fails only if an allocation fails.
fn copy(text: &Option<Text>) -> Result<Option<Text>, AllocError>
    ensures { IfOk result (λ t. t ≡ text.now) }
{
    match text {
        Some(text) => Ok(Some(text.clone()?)),
        None => Ok(None),
    }
}

/// An entry that sets up a part of a topology.
trait Entry {
    ghost use Rattle.std.specs.Prelude.{◌≡◌, IfOk};

    /// An exchange, a queue or a binding.
    type Part: Drop;

    // the part that an entry sets up
    ghost sets_up: { Self → Self.Part };

    /// Builds the part that the entry sets up. Fails only if an allocation fails.
    fn part(&self) -> Result<Self::Part, AllocError>
        ensures { IfOk result (λ made. made ≡ sets_up self.now) };
}

impl Entry for ExchangeEntry {
    ghost use Rattle.definitions.specs.States.{exchange_of};

    type Part = Exchange;

    ghost sets_up = { exchange_of };

    fn part(&self) -> Result<Exchange, AllocError> {
        Ok(Exchange {
            name: self.name.clone()?,
            kind: kind_named(self.kind.as_bytes()).unwrap_or(ExchangeKind::Direct),
            internal: self.internal,
            alternate: copy(&self.arguments.alternate)?,
        })
    }
}

impl Entry for QueueEntry {
    ghost use Rattle.definitions.specs.States.{queue_of};

    type Part = DeclaredQueue;

    ghost sets_up = { queue_of };

    fn part(&self) -> Result<DeclaredQueue, AllocError> {
        Ok(DeclaredQueue {
            name: self.name.clone()?,
            limit: self.arguments.max_length,
            byte_limit: self.arguments.max_bytes,
            dead_letter_exchange: copy(&self.arguments.dead_letter_exchange)?,
            dead_letter_key: copy(&self.arguments.dead_letter_key)?,
        })
    }
}

/// Returns the destination of a binding; for an unknown destination type the binding's own source.
fn destination_of(entry: &BindingEntry) -> Result<Destination, AllocError>
    ensures { IfOk result (λ p. p ≡ destination_of entry.now) }
{
    if entry.destination_type.as_bytes() == b"queue".as_slice() {
        Ok(Destination::Queue(entry.destination.clone()?))
    } else if entry.destination_type.as_bytes() == b"exchange".as_slice() {
        Ok(Destination::Exchange(entry.destination.clone()?))
    } else {
        Ok(Destination::Exchange(entry.source.clone()?))
    }
}

impl Entry for BindingEntry {
    ghost use Rattle.definitions.specs.States.{binding_of};

    type Part = Binding;

    ghost sets_up = { binding_of };

    fn part(&self) -> Result<Binding, AllocError> {
        Ok(Binding {
            source: self.source.clone()?,
            to: destination_of(self)?,
            key: self.key.clone()?,
        })
    }
}

/// Builds the parts that `entries` set up, in order. Fails only if an allocation fails.
fn parts_of<E: Entry>(alloc: Global, entries: &[E]) -> Result<Vec<E::Part>, AllocError>
    ensures { IfOk result (λ made. made.items ≡ map E.sets_up entries.now) }
{
    let mut made = Vec::new(alloc);
    for entry in entries {
        made.push(entry.part()?)?;
    }
    Ok(made)
}

/// The exchanges, queues and bindings that a file sets up.
pub struct Parts {
    exchanges: Vec<Exchange>,
    queues: Vec<DeclaredQueue>,
    bindings: Vec<Binding>,
}

/// Not derived: a derived drop is expanded, and proved again, in each function that drops the value.
impl Drop for Parts {
    fn drop(self) {
        let Parts {
            exchanges: _,
            queues: _,
            bindings: _,
        } = self;
    }
}

impl Model for Parts {
    ghost use Rattle.model.specs.Topology.{Topology};

    ghost Value = { Topology };

    ghost view = { λ p. record { exchanges = p.exchanges.items; queues = p.queues.items; bindings = p.bindings.items } };
}

impl Parts {
    /// Builds what `document` sets up, without its users. Fails only if an allocation fails.
    pub fn of(alloc: Global, document: &Document) -> Result<Parts, AllocError>
        ensures { IfOk result (λ p. p ≡ topology_of (file_of document.now)) }
    {
        let exchanges = parts_of(alloc, document.exchanges.as_slice())?;
        let queues = parts_of(alloc, document.queues.as_slice())?;
        let bindings = parts_of(alloc, document.bindings.as_slice())?;
        Ok(Parts {
            exchanges,
            queues,
            bindings,
        })
    }

    /// Returns a draft, which checks the conditions on a topology.
    pub fn draft(&self, alloc: Global) -> Draft<'_>
        ensures { result ≡ self.entry.now }
    {
        Draft::of(
            alloc,
            self.exchanges.as_slice(),
            self.queues.as_slice(),
            self.bindings.as_slice(),
        )
    }

    /// Builds the topology, which meets every condition. Fails only if an allocation fails.
    pub fn sound(self, alloc: Global) -> Result<Topology, AllocError>
        requires { IsBuildable self }
        ensures { IfOk result (λ t. t ≡ self) }
    {
        let Parts {
            exchanges,
            queues,
            bindings,
        } = self;
        Topology::sound(alloc, exchanges, queues, bindings)
    }
}

/// Copies `bytes` if there are exactly 36, and returns `None` otherwise. Fails only if an allocation fails.
fn of_36(alloc: Global, bytes: &[u8]) -> Result<Option<Text>, AllocError>
    ensures { IfOk result (λ o. o ≡ of_36 bytes.now) }
{
    if bytes.len() == 36 {
        Ok(Some(Text::from_slice(alloc, bytes)?))
    } else {
        Ok(None)
    }
}

/// Returns the salt and hash of a user, or `None` unless they are made with SHA-256 and written as 36 bytes in Base64. Fails only if an
/// allocation fails.
#[tactic(auto, unfolding(crate::specs::States::hash_of))]
fn hash_of(alloc: Global, entry: &UserEntry) -> Result<Option<Text>, AllocError>
    ensures { IfOk result (λ o. o ≡ hash_of entry.now) }
{
    if entry.hashing_algorithm.as_bytes() != b"rabbit_password_hashing_sha256".as_slice() {
        return Ok(None);
    }
    match STANDARD.decode(alloc, entry.password_hash.as_bytes()) {
        Ok(hash) => of_36(alloc, hash.as_slice()),
        Err(DecodeAllocError::DecodeError(_)) => Ok(None),
        Err(DecodeAllocError::OutOfMemory) => Err(AllocError),
    }
}

/// Builds the users, or returns `None` if a password is hashed in another way. Fails only if an allocation fails.
pub fn users_of(alloc: Global, entries: &[UserEntry]) -> Result<Option<Vec<User>>, AllocError>
    ensures { IfOk result (λ o. MatchOption o (All (λ u. IsSome (hash_of u)) entries.now → ⊥) (λ made. AreHashed entries.now made.items)) }
{
    let mut made = Vec::new(alloc);
    for entry in entries {
        match hash_of(alloc, entry)? {
            Some(hash) => made.push(User {
                name: entry.name.clone()?,
                hash,
            })?,
            None => return Ok(None),
        }
    }
    Ok(Some(made))
}
