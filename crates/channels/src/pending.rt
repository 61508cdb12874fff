//! The unacknowledged deliveries of a channel.

use crate::spans::Span;
use crate::tags::{behind, close_if, forget_in, make_place};
use model::Delivery;
use std::alloc::{AllocError, Global};
use std::marker::Model;

/// The unacknowledged deliveries, in the order of their tags: the entries of `items` from index `start` on, except those with tag 0. Tag 0 marks
/// a delivery that was settled while earlier ones were unacknowledged; its entry stays for a while.
#[derive(Drop)]
pub(crate) struct Unsettled {
    items: Vec<Delivery>,
    start: usize,
    /// The number of unacknowledged deliveries.
    count: usize,
    /// The last tag that was recorded; 0 before the first.
    last: u64,
}

impl Model for Unsettled {
    ghost use Rattle.std.specs.Prelude.{◌-◌, vec_capacity, drop};
    ghost use Rattle.model.specs.Placed.{waiting};
    ghost use Rattle.channels.specs.Outstanding.{OutstandingList, AreKept};

    ghost Value = { OutstandingList };

    ghost view = { λ p. record { outstanding = waiting (drop p.start p.items.items); last = p.last; room = vec_capacity p.items - p.count } };

    ghost invariant = { λ p. AreKept p.items.items p.start p.count p.last };
}

impl Unsettled {
    ghost use Rattle.std.specs.Prelude.{◌≡◌, ◌+◌, ◌*◌, ◌<◌, ◌≤◌, ◌^◌, ◌++◌, ◌∷◌, [], ℕ, OnOk, OnErr, length, map};
    ghost use Rattle.model.specs.Placed.{waiting};
    ghost use Rattle.model.specs.Settling.{kept, Rises};
    ghost use Rattle.channels.specs.Outstanding.{tag_of, given_tag};
    ghost use Rattle.channels.specs.Moving.{outstanding_moved};

    /// Makes an empty list. Never allocates.
    pub(crate) fn new(alloc: Global) -> Unsettled
        ensures outstanding { result.outstanding ≡ [] }
        ensures last { result.last ≡ 0 }
        ensures room { result.room ≡ 0 }
    {
        Unsettled {
            items: Vec::new(alloc),
            start: 0,
            count: 0,
            last: 0,
        }
    }

    /// Returns the unacknowledged deliveries in tag order. Settled entries may be among them: at most as many as are unacknowledged, plus 32.
    pub(crate) fn all(&self) -> &[Delivery]
        ensures all { waiting result.now ≡ self.now.outstanding }
        ensures rises { Rises given_tag result.now }
        ensures few { length result.now ≤ 2 * length self.now.outstanding + 32 }
    {
        behind(&self.items, self.start)
    }

    /// Removes the `gone` deliveries that `span` settles. Compacts the list if it then has over 32 entries more than twice the number of
    /// unacknowledged ones.
    pub(crate) fn forget(&mut self, span: Span, gone: usize)
        requires { gone + length (kept tag_of span.tag span.multiple self.old.outstanding) ≡ length self.old.outstanding }
        ensures outstanding { self.new.outstanding ≡ kept tag_of span.tag span.multiple self.old.outstanding }
        ensures last { self.new.last ≡ self.old.last }
        ensures room { self.old.room ≤ self.new.room }
    {
        self.start = forget_in(&mut self.items, self.start, span);
        self.count -= gone;
        let is_wanted = is_sparse(self.items.len(), self.count);
        self.start = close_if(&mut self.items, self.start, is_wanted);
    }

    /// Reserves capacity for `more` deliveries: by compacting the list if that suffices and a quarter of it was settled, otherwise by growing it.
    /// Fails only if compacting does not suffice and the allocation fails; nothing has changed then.
    pub(crate) fn reserve(&mut self, more: usize) -> Result<(), AllocError>
        // The capacity after it, also if it fails.
        ensures outstanding { self.new.outstanding ≡ self.old.outstanding }
        ensures last { self.new.last ≡ self.old.last }
        ensures kept { self.old.room ≤ self.new.room }
        ensures room { OnOk result (more ≤ self.new.room) }
        // When it may fail, and how much it allocates.
        ensures full { OnErr result (self.old.room < more) }
        ensures grown { self.old.room < self.new.room → self.new.room ≤ 3 * length self.old.outstanding + more + 68 }
        ensures err { OnErr result (self.new ≡ self.old) }
    {
        let is_enough = more <= self.items.capacity() - self.count;
        let is_worth = is_enough && is_worth_closing(&self.items, self.count, more);
        self.start = close_if(&mut self.items, self.start, is_worth);
        if grow(&mut self.items, more).is_err() && !is_enough {
            return Err(AllocError);
        }
        Ok(())
    }

    /// Sets each queue's index to the one that `indices` has for it. Never allocates.
    pub(crate) fn renumber(&mut self, indices: &[usize])
        ensures outstanding { self.new.outstanding ≡ map (outstanding_moved indices.now) self.old.outstanding }
        ensures last { self.new.last ≡ self.old.last }
        ensures room { self.new.room ≡ self.old.room }
    {
        renumber_each(&mut self.items, indices);
    }

    /// Records `given` as unacknowledged. Its tag is greater than all recorded before.
    pub(crate) fn push(&mut self, given: Delivery)
        requires room { 0 < self.old.room }
        requires rises { self.old.last < given.tag }
        // The delivery is the last, and uses one slot.
        ensures outstanding { self.new.outstanding ≡ self.old.outstanding ++ given ∷ [] }
        ensures last { self.new.last ≡ given.tag }
        ensures room { self.new.room + 1 ≡ self.old.room }
        ensures bounded { length self.new.outstanding < 2 ^ 64 }
    {
        self.start = make_place(&mut self.items, self.start);
        self.items.push_reserved(given);
        self.count += 1;
        self.last = given.tag;
    }
}

ghost use Rattle.std.specs.Prelude.{◌≡◌, ◌+◌, ◌*◌, ◌<◌, ◌≤◌, false, OnOk, OnErr, vec_len, vec_capacity, map};
ghost use Rattle.channels.specs.Moving.{place_now, outstanding_moved};

/// Returns whether `places` is more than `2 * count + 32`: of `places` entries, `count` are unacknowledged.
fn is_sparse(places: usize, count: usize) -> bool
    requires { count ≤ places }
    ensures { result ≡ false → places ≤ 2 * count + 32 }
{
    let settled = places - count;
    settled > 32 && settled - 32 > count
}

/// Returns whether `items` has no spare capacity for `more` entries, while over a quarter of its entries are settled.
fn is_worth_closing(items: &Vec<Delivery>, count: usize, more: usize) -> bool
    requires { count ≤ vec_len items.now }
{
    let places = items.len();
    more > items.capacity() - places && places - count > places / 4
}

/// Returns by how many entries a list of `places` entries grows if `more` are needed: at least by `places`, so that growths are few.
fn growth(places: usize, more: usize) -> usize
    ensures enough { more ≤ result }
    ensures few { result ≤ places + more + 4 }
{
    if more > places {
        return more;
    }
    if places > 4 { places } else { 4 }
}

/// Reserves spare capacity for `more` entries, unless `items` has it. Fails only if the allocation fails.
fn grow(items: &mut Vec<Delivery>, more: usize) -> Result<(), AllocError>
    // The entries are unchanged.
    ensures items { items.new.items ≡ items.old.items }
    ensures len { vec_len items.new ≡ vec_len items.old }
    // The capacity after the call, when the call may fail, and how much it allocates.
    ensures ok { OnOk result (vec_len items.new + more ≤ vec_capacity items.new) }
    ensures capacity { vec_capacity items.old ≤ vec_capacity items.new }
    ensures full { OnErr result (vec_capacity items.old < vec_len items.old + more) }
    ensures grown { vec_capacity items.old < vec_capacity items.new → vec_capacity items.new ≤ 2 * vec_len items.old + more + 4 }
    ensures err { OnErr result (vec_capacity items.new ≡ vec_capacity items.old) }
{
    if more <= items.capacity() - items.len() {
        return Ok(());
    }
    items.reserve_exact(growth(items.len(), more))
}

/// Returns the new index of the queue at `index`, from the table `indices`; `index` itself if it is past the table's end.
pub(crate) fn place_now(indices: &[usize], index: usize) -> usize
    ensures { result ≡ place_now indices.now index }
{
    match indices.get(index) {
        Some(now) => *now,
        None => index,
    }
}

/// Sets each queue's index to the one that `places` has for it.
fn renumber_each(items: &mut Vec<Delivery>, places: &[usize])
    ensures items { items.new.items ≡ map (outstanding_moved places.now) items.old.items }
    ensures len { vec_len items.new ≡ vec_len items.old }
    ensures capacity { vec_capacity items.new ≡ vec_capacity items.old }
{
    renumber_slice(items, places);
}

/// Sets each queue's index to the one that `places` has for it.
fn renumber_slice(items: &mut [Delivery], places: &[usize])
    ensures { items.new ≡ map (outstanding_moved places.now) items.old }
{
    for one in items.iter_mut() {
        one.queue = place_now(places, one.queue);
    }
}
