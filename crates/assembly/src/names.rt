//! Caches of one stream: a name that repeats shares its bytes, and a publish that repeats isn't decoded again.
//!
//! Correctness doesn't depend on them: what a cache returns is exactly what the bytes encode.

ghost use Rattle.std.specs.Prelude.{◌≡◌, ◌≤◌, [], IfSome, length};
ghost use Rattle.assembly.specs.Names.{SpellsPublish, IsKnownRight, AreRight};

use model::{Publish, Text};
use std::alloc::Global;
use std::marker::Model;

/// The number of slots for names.
const MOST_NAMES: usize = 64;

/// The number of slots for publishes.
const MOST_PUBLISHES: usize = 32;

/// A publish with the payload that encodes it.
#[derive(Drop)]
pub(crate) struct Known {
    pub(crate) payload: Vec<u8>,
    pub(crate) publish: Publish,
}

/// The last names and publishes, each in the slot that its bytes hash to. Empty until the first publish.
#[derive(Drop)]
pub(crate) struct LastNames {
    names: Vec<Text>,
    publishes: Vec<Option<Known>>,
}

impl Model for LastNames {
    ghost use Rattle.assembly.specs.Names.{Learned, AreFew, AreRight};

    ghost Value = { Learned };

    ghost view = { λ n. record { names = n.names.items; publishes = n.publishes.items } };

    ghost invariant = { λ n. AreRight n.publishes.items × AreFew (record { names = n.names.items; publishes = n.publishes.items }) };
}

impl LastNames {
    ghost use Rattle.std.specs.Prelude.{◌≡◌, IfSome};
    ghost use Rattle.assembly.specs.Names.{SpellsPublish, AreFew};

    /// Returns empty caches. Never allocates.
    pub(crate) fn new(alloc: Global) -> LastNames {
        LastNames {
            names: Vec::new(alloc),
            publishes: Vec::new(alloc),
        }
    }

    /// Proves that there are at most 64 names and 32 publishes. Does nothing when called.
    pub(crate) fn ghost_are_few(&self)
        ensures { AreFew self.now }
    {
        let _ = &self.names;
    }

    /// Returns the publish that `payload` encodes if it is cached. Returns `None` if it is not, or if an allocation fails while its names are shared.
    pub(crate) fn publish_of(&self, payload: &[u8]) -> Option<Publish>
        ensures { IfSome result (λ p. SpellsPublish payload.now p) }
    {
        publish_in(&self.publishes, payload)
    }

    /// Caches `publish`, which `payload` encodes, and returns it with names that share cached bytes. A failed allocation only means less caching or sharing.
    pub(crate) fn learn(&mut self, alloc: Global, payload: &[u8], publish: Publish) -> Publish
        requires { SpellsPublish payload.now publish }
        ensures { result ≡ publish }
    {
        let publish = sharing(&mut self.names, publish);
        keep_in(alloc, &mut self.publishes, payload, &publish);
        publish
    }
}

/// Returns the publish that `payload` encodes if it is in its slot, or else `None`.
fn publish_in(slots: &[Option<Known>], payload: &[u8]) -> Option<Publish>
    requires { AreRight slots.now }
    ensures { IfSome result (λ p. SpellsPublish payload.now p) }
{
    let place = place_of(payload) % MOST_PUBLISHES;
    if place < slots.len() {
        known_at(&slots[place], payload)
    } else {
        None
    }
}

/// Returns the publish in `slot` if `payload` encodes it, or else `None`.
fn known_at(slot: &Option<Known>, payload: &[u8]) -> Option<Publish>
    requires { IsKnownRight slot.now }
    ensures { IfSome result (λ p. SpellsPublish payload.now p) }
{
    match slot {
        Some(known) if known.payload.as_slice() == payload => copy_of(&known.publish),
        _ => None,
    }
}

/// Returns a copy of `publish` that shares its names, or `None` if an allocation fails.
fn copy_of(publish: &Publish) -> Option<Publish>
    ensures { IfSome result (λ p. p ≡ publish.now) }
{
    match (publish.exchange.clone(), publish.routing_key.clone()) {
        (Ok(exchange), Ok(routing_key)) => Some(Publish {
            reserved: publish.reserved,
            exchange,
            routing_key,
            mandatory: publish.mandatory,
            immediate: publish.immediate,
        }),
        _ => None,
    }
}

/// Stores `publish`, which `payload` encodes, in its slot. If an allocation fails the slot is empty afterwards.
fn keep_in(alloc: Global, slots: &mut Vec<Option<Known>>, payload: &[u8], publish: &Publish)
    requires kept { AreRight slots.old.items }
    requires few { length slots.old.items ≤ 32 }
    requires spelled { SpellsPublish payload.now publish.now }
    ensures kept { AreRight slots.new.items }
    ensures few { length slots.new.items ≤ 32 }
{
    if slots.is_empty() {
        make_slots(slots);
    }
    let place = place_of(payload) % MOST_PUBLISHES;
    if place < slots.len() {
        slots[place] = known_of(alloc, payload, publish);
    }
}

/// Returns copies of `publish` and of the payload that encodes it, or `None` if an allocation fails.
fn known_of(alloc: Global, payload: &[u8], publish: &Publish) -> Option<Known>
    requires { SpellsPublish payload.now publish.now }
    ensures { IsKnownRight result }
{
    match (copy_of(publish), Vec::from_slice(alloc, payload)) {
        (Some(publish), Ok(payload)) => Some(Known { payload, publish }),
        _ => None,
    }
}

/// Creates the slots for publishes, or fewer if an allocation fails.
fn make_slots(slots: &mut Vec<Option<Known>>)
    requires { slots.old.items ≡ [] }
    ensures kept { AreRight slots.new.items }
    ensures few { length slots.new.items ≤ 32 }
{
    for _ in 0..MOST_PUBLISHES {
        match slots.push(None) {
            Ok(()) => {}
            Err(_) => return,
        }
    }
}

/// Returns `publish` with names that share the bytes of cached ones.
fn sharing(names: &mut Vec<Text>, publish: Publish) -> Publish
    requires { length names.old.items ≤ 64 }
    ensures same { result ≡ publish }
    ensures few { length names.new.items ≤ 64 }
{
    let Publish {
        reserved,
        exchange,
        routing_key,
        mandatory,
        immediate,
    } = publish;
    Publish {
        reserved,
        exchange: shared(names, exchange),
        routing_key: shared(names, routing_key),
        mandatory,
        immediate,
    }
}

/// Returns `name`, sharing the bytes of the cached name if it is the same, or else caches it. If an allocation fails `name` itself is returned.
fn shared(names: &mut Vec<Text>, name: Text) -> Text
    requires { length names.old.items ≤ 64 }
    ensures same { result ≡ name }
    ensures few { length names.new.items ≤ 64 }
{
    if names.is_empty() {
        make_places(names);
    }
    match names.get_mut(place_of(name.as_bytes()) % MOST_NAMES) {
        Some(place) => share(place, name),
        None => name,
    }
}

/// Creates the slots for names, or fewer if an allocation fails.
fn make_places(names: &mut Vec<Text>)
    requires { names.old.items ≡ [] }
    ensures { length names.new.items ≤ 64 }
{
    for _ in 0..MOST_NAMES {
        if names.push(Text::empty()).is_err() {
            return;
        }
    }
}

/// Returns a hash of `bytes`.
fn place_of(bytes: &[u8]) -> usize {
    let mut mixed = 0u32;
    for byte in bytes {
        mixed = mixed.wrapping_mul(31).wrapping_add(u32::from(*byte));
    }
    mixed as usize
}

/// Returns `name`, sharing the bytes of `place` if they are the same; otherwise `place` shares those of `name`. Shares nothing if an allocation fails.
fn share(place: &mut Text, name: Text) -> Text
    ensures { result ≡ name }
{
    if place.as_bytes() == name.as_bytes() {
        return match place.clone() {
            Ok(shared) => shared,
            Err(_) => name,
        };
    }
    if let Ok(shared) = name.clone() {
        *place = shared;
    }
    name
}
