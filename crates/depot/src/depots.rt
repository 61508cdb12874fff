//! The depot: publishes, what the queues hold, and what is given out and settled.

ghost use Rattle.std.specs.Prelude.{◌<◌, ℕ, length};
ghost use Rattle.depot.specs.Store.{Store, IsStoreWhole, IsQueueNamed};

use crate::entering::enter;
use crate::givings::Giving;
use crate::moving::indices_in;
use crate::publishing::{note_of, publish_to_many, route_of};
use crate::purging::purge_in;
use crate::queues::Queues;
use crate::rejecting::reject_in;
use crate::settling::{ack_all, leave, name_of, requeue_in};
use crate::taking::give;
use crate::turns::PlannedTurn;
use exchange_graph::{Route, Router, Topology};
use model::{ChannelId, Content, Delivery, Entry, Holder, Message, Publish};
use notes::Notes;
use queue::{Store as _, Walk};
use std::alloc::{AllocError, Global};
use std::marker::Model;
use std::sync::Arc;

/// Where a publish went.
#[derive(Clone, Copy, PartialEq, Eq, Debug, Drop)]
pub struct Routed {
    /// Whether the publish was routed to no queue.
    pub is_none: bool,
    /// Whether a routed queue was full and refused it.
    pub is_some_full: bool,
}

/// The queues of a topology, and the number of publishes.
pub struct Depot {
    router: Router,
    queues: Queues,
    published: u64,
    /// Whether somebody reads the notes.
    keeps_notes: bool,
}

/// Not derived: a derived drop is expanded, and proved again, in each function that drops the value.
impl Drop for Depot {
    fn drop(self) {
        let Depot {
            router: _,
            queues: _,
            published: _,
            keeps_notes: _,
        } = self;
    }
}

impl Model for Depot {
    ghost use Rattle.std.specs.Prelude.{◌≡◌, length};
    ghost use Rattle.depot.specs.Store.{Store, entries_of};

    ghost Value = { Store };

    ghost view = { λ d. record { topology = d.router; queues = entries_of d.queues; published = d.published } };

    ghost invariant = { λ d. length d.queues ≡ length d.router.queues };
}

impl Depot {
    ghost use Rattle.std.specs.Prelude.{
      ◌≡◌,
      ◌+◌,
      ◌<◌,
      ◌≤◌,
      ◌++◌,
      [],
      length,
      map,
      find,
      replicate,
      IfOk,
      IfSome,
      OnOk,
      OnErr,
      Some,
      None,
      vec_len,
      vec_capacity,
      option_map,
    };
    ghost use Rattle.std.specs.Arc.{arc_value};
    ghost use Rattle.model.specs.Broker.{is_ready, queue_named};
    ghost use Rattle.model.specs.Step.{greatest};
    ghost use Rattle.model.specs.Entries.{is_held_as};
    ghost use Rattle.queue.specs.Line.{ready_count};
    ghost use Rattle.depot.specs.Store.{entries_named, queue_at, with_entries_at, IsStoreWhole, IsQueueNamed, IsNextReady};
    ghost use Rattle.depot.specs.Givings.{CanGive, HasRoomFor, IsTakenFrom, ReturnsArrival, given_notes, given_so};
    ghost use Rattle.model.specs.Topology.{queue_names};
    ghost use Rattle.model.specs.Reloading.{survived_now};
    ghost use Rattle.model.specs.Words.{Text};
    ghost use Rattle.exchange_graph.specs.Routers.{IsRoute};
    ghost use Rattle.depot.specs.Moving.{AreMoved, GoneAreEmpty};
    ghost use Rattle.depot.specs.Publishing.{Publishing};
    ghost use Rattle.model.specs.Placed.{waiting, AreWithin, AreByTag};
    ghost use Rattle.model.specs.Deliveries.{Leaves, Rejects, Returns};
    ghost use Rattle.model.specs.declared.notes.Cause.TheVariants.{Acked};
    ghost use Rattle.depot.specs.Settled.{AreSettledBy, IsHeldOnce};
    ghost use Rattle.depot.specs.Purging.{IsPurgedBy};
    ghost use Rattle.exchange_graph.specs.Marks.{queue_name};

    /// Makes the depot of `topology`, whose queues are empty. Fails only if an allocation fails.
    pub fn new(alloc: Global, topology: Topology) -> Result<Depot, AllocError>
        ensures { IfOk result (λ d. d ≡ record { topology = topology; queues = replicate (length topology.queues) []; published = 0 }) }
    {
        let queues = Queues::new(alloc, topology.queues().len())?;
        let router = Router::new(alloc, topology)?;
        Ok(Depot {
            router,
            queues,
            published: 0,
            keeps_notes: true,
        })
    }

    /// Stops keeping notes, for a caller that reads none. Contracts see no difference.
    pub fn drop_notes(&mut self)
        ensures { self.new ≡ self.old }
    {
        self.keeps_notes = false;
    }

    /// Returns an empty list for the notes of a step, which keeps them if somebody reads them. Never allocates.
    pub fn notes(&self, alloc: Global) -> Notes
        ensures { result.items ≡ [] }
    {
        if self.keeps_notes {
            Notes::new(alloc)
        } else {
            Notes::unkept(alloc)
        }
    }

    /// Publishes a content on channel `id`: appends the message to each routed queue that is not full, in the order of the definitions, with
    /// the next publish number. `confirm` is its confirm number, if the channel confirms. `route` is the route of its exchange and key if that is
    /// known; otherwise it is looked up and remembered. Appends a note of the publish and one for each routed queue, with capacity for two more.
    /// Bodies are shared.
    /// Fails only if an allocation fails; only capacity may have grown then.
    pub fn publish(
        &mut self,
        alloc: Global,
        id: ChannelId,
        publish: &Publish,
        content: &Content,
        confirm: Option<u64>,
        route: Option<Arc<Route>>,
        notes: &mut Notes,
    ) -> Result<Routed, AllocError>
        requires counted { self.old.published < greatest }
        requires routed { IfSome route (λ r. IsRoute self.old.topology publish.now.exchange publish.now.routing_key (arc_value r)) }
        // The promise, and the capacity of `notes`.
        ensures ok { IfOk result (λ r.
            Publishing self.old id.connection id.number publish.now content.now confirm notes.old.items notes.new.items r self.new) }
        ensures room { OnOk result (vec_len notes.new + 2 ≤ vec_capacity notes.new) }
        // A failure changes neither the store nor the notes.
        ensures unchanged { OnErr result (self.new ≡ self.old) }
        ensures notes { OnErr result (notes.new.items ≡ notes.old.items) }
    {
        let number = self.published + 1;
        let first = note_of(number, id, publish, confirm)?;
        let route = route_of(alloc, &mut self.router, publish, route)?;
        let message = Message::of_publish(alloc, number, publish, content)?;
        let topology = self.router.topology();
        topology.ghost_is_well_formed();
        let targets: &[usize] = &route.targets;
        if targets.len() != 1 {
            let routed = publish_to_many(
                alloc,
                topology,
                &mut self.queues,
                targets,
                message,
                first,
                notes,
            )?;
            self.published = number;
            return Ok(routed);
        }
        let place = targets[0];
        let declared = topology.queue(place);
        let turn = PlannedTurn {
            place,
            name: declared.name.clone()?,
            message,
        };
        let queue = self.queues.queue_mut(place);
        queue.reserve(1)?;
        notes.reserve_exact(4)?;
        notes.push_reserved(first);
        let is_some_full = enter(declared, queue, turn, notes);
        self.queues.count_coming(place, is_some_full);
        self.published = number;
        Ok(Routed {
            is_none: false,
            is_some_full,
        })
    }

    /// Acknowledges the unacknowledged deliveries of `gone`: their messages leave their queues one after another, with a note for each.
    /// Fails only if an allocation fails; only capacity may have grown then.
    pub fn ack(
        &mut self,
        alloc: Global,
        id: ChannelId,
        gone: &[Delivery],
        notes: &mut Notes,
    ) -> Result<(), AllocError>
        requires within { AreWithin self.old.topology (waiting gone.now) }
        requires distinct { IsHeldOnce self.old }
        ensures ok { OnOk result (AreSettledBy (Leaves Acked) self.old id.connection id.number (waiting gone.now)
            notes.old.items notes.new.items self.new) }
        ensures unchanged { OnErr result (self.new ≡ self.old) }
        ensures notes { OnErr result (notes.new.items ≡ notes.old.items) }
    {
        let topology = self.router.topology();
        topology.ghost_is_well_formed();
        if gone.len() != 1 {
            return ack_all(alloc, topology, &mut self.queues, id, gone, notes);
        }
        let given = &gone[0];
        if !given.is_waiting() {
            return Ok(());
        }
        let queue = name_of(topology, given)?;
        notes.reserve_exact(1)?;
        leave(&mut self.queues, id, given, queue, notes);
        Ok(())
    }

    /// Rejects the unacknowledged deliveries of `gone`: their messages leave their queues in the order of their tags. If its queue has a
    /// dead-letter exchange, a message is dead-lettered: appended to each queue that it is routed to from there and that is not full then, in the
    /// order of the definitions. A later rejection finds the queues as the earlier dead letters left them. Appends a note for each message that left,
    /// followed by one for each queue that its dead letter is routed to. Bodies are shared.
    /// Fails only if an allocation fails; only capacity may have grown then.
    pub fn reject(
        &mut self,
        alloc: Global,
        id: ChannelId,
        gone: &[Delivery],
        notes: &mut Notes,
    ) -> Result<(), AllocError>
        // What the caller knows of the deliveries: queues that exist, ascending tags, one message of a queue under a tag.
        requires within { AreWithin self.old.topology (waiting gone.now) }
        requires ordered { AreByTag (waiting gone.now) }
        requires distinct { IsHeldOnce self.old }
        // The promise; a failure changes neither the store nor the notes.
        ensures ok { OnOk result (AreSettledBy Rejects self.old id.connection id.number (waiting gone.now)
            notes.old.items notes.new.items self.new) }
        ensures unchanged { OnErr result (self.new ≡ self.old) }
        ensures notes { OnErr result (notes.new.items ≡ notes.old.items) }
    {
        self.router.topology().ghost_is_well_formed();
        reject_in(alloc, &mut self.router, &mut self.queues, id, gone, notes)
    }

    /// Requeues the unacknowledged deliveries of `gone`: each message is ready again in its place, marked redelivered. Never allocates.
    pub fn requeue(&mut self, id: ChannelId, gone: &[Delivery])
        requires { AreWithin self.old.topology (waiting gone.now) }
        ensures { AreSettledBy Returns self.old id.connection id.number (waiting gone.now) [] [] self.new }
    {
        self.router.topology().ghost_is_well_formed();
        requeue_in(&mut self.queues, id, gone);
    }

    /// Returns the topology of the depot.
    pub fn topology(&self) -> &Topology
        ensures { result.now ≡ self.now.topology }
    {
        self.router.topology()
    }

    /// Returns the router of the depot's topology.
    pub fn router(&self) -> &Router
        ensures { result.now ≡ self.now.topology }
    {
        &self.router
    }

    /// Returns the number of publishes.
    pub fn published(&self) -> u64
        ensures { result ≡ self.now.published }
    {
        self.published
    }

    /// Returns how many messages have entered queues whose consumers lag behind.
    pub fn lagged(&self) -> u64 {
        self.queues.lagged()
    }

    /// Returns the number of ready messages of the queue `name`, or `None` if there is no such queue.
    pub fn ready(&self, name: &[u8]) -> Option<usize>
        ensures { result ≡ option_map (λ _. ready_count (entries_named self.now name.now)) (queue_named self.now.topology.queues name.now) }
    {
        let topology = self.router.topology();
        let place = topology.queue_at(name)?;
        Some(self.ready_at(place))
    }

    /// Returns the first ready message of the queue `name`, or `None` if there is none or no such queue. Never allocates.
    pub fn first_ready(&self, name: &[u8]) -> Option<&Entry>
        ensures { option_map (λ e. e.now) result ≡ find is_ready (entries_named self.now name.now) }
    {
        self.ghost_is_whole();
        let place = self.topology().queue_at(name)?;
        self.ghost_is_named(place);
        self.first_ready_at(place)
    }

    /// Gives out the first ready message of the queue `name`, as [`Depot::take_at`] does. Does nothing and returns `None` if there
    /// is no such queue. Never allocates.
    pub fn take(&mut self, name: &[u8], how: Giving, notes: &mut Notes) -> Option<u64>
        requires free { CanGive how (entries_named self.old name.now) }
        requires room { HasRoomFor how (vec_len notes.old) (vec_capacity notes.old) }
        ensures reported { ReturnsArrival how (find is_ready (entries_named self.old name.now)) result }
        ensures taken { IsTakenFrom self.old name.now how self.new }
        ensures notes { notes.new.items ≡ notes.old.items ++ given_notes how (find is_ready (entries_named self.old name.now)) }
    {
        let Some(place) = self.topology().queue_at(name) else {
            return None;
        };
        self.ghost_is_named(place);
        self.take_at(place, how, notes)
    }

    /// Purges the queue `name`, as [`Depot::purge_at`] does, and returns how many messages left it: 0 if there is no such queue.
    /// Fails only if an allocation fails; only capacity may have grown then.
    pub fn purge(&mut self, name: &[u8], notes: &mut Notes) -> Result<usize, AllocError>
        ensures ok { IfOk result (λ count. IsPurgedBy self.old name.now notes.old.items notes.new.items count self.new) }
        ensures unchanged { OnErr result (self.new ≡ self.old) }
        ensures notes { OnErr result (notes.new.items ≡ notes.old.items) }
        ensures wanted { OnErr result (0 < ready_count (entries_named self.old name.now)) }
    {
        let Some(place) = self.topology().queue_at(name) else {
            return Ok(0);
        };
        self.ghost_is_named(place);
        self.purge_at(place, notes)
    }

    /// Shows the invariant of a depot. Does nothing at run time.
    pub fn ghost_is_whole(&self)
        ensures { IsStoreWhole self.now }
    {
        self.router.topology().ghost_is_well_formed();
    }

    /// Shows that the queue at `index` is the one with its name. Does nothing at run time.
    pub fn ghost_is_named(&self, index: usize)
        requires { index < length self.now.topology.queues }
        ensures { IsQueueNamed self.now index }
    {
        self.ghost_is_whole();
    }

    /// Returns the index of the first queue at or after `from` with a ready message, or `None` if there is none. Looks at a set of indices, not
    /// at the queues before it.
    pub fn next_ready(&self, from: usize) -> Option<usize>
        ensures reported { IsNextReady self.now from result }
    {
        self.queues.next_ready(from)
    }

    /// Returns the number of ready messages of the queue at `index`.
    pub fn ready_at(&self, index: usize) -> usize
        requires { index < length self.now.topology.queues }
        ensures { result ≡ ready_count (queue_at self.now index) }
    {
        self.queues.queue(index).ready()
    }

    /// Returns the first ready message of the queue at `index`.
    pub fn first_ready_at(&self, index: usize) -> Option<&Entry>
        requires { index < length self.now.topology.queues }
        ensures { option_map (λ e. e.now) result ≡ find is_ready (queue_at self.now index) }
    {
        self.queues.queue(index).first_ready()
    }

    /// Gives out the first ready message of the queue at `index`, if any. With [`Giving::Held`] it is held by the holder, under whose tag the queue
    /// holds nothing before, and the number of its arrival is returned, by which [`Depot::held`] finds it. With [`Giving::Out`] it leaves the queue
    /// with a note, for which there is capacity. Never allocates.
    pub fn take_at(&mut self, index: usize, how: Giving, notes: &mut Notes) -> Option<u64>
        // What the caller knows: nothing is held under the new tag, or there is capacity for the note.
        requires within { index < length self.old.topology.queues }
        requires free { CanGive how (queue_at self.old index) }
        requires room { HasRoomFor how (vec_len notes.old) (vec_capacity notes.old) }
        // What is returned, what changes, and what is noted.
        ensures reported { ReturnsArrival how (find is_ready (queue_at self.old index)) result }
        ensures given_out { self.new ≡ with_entries_at self.old index (given_so how (queue_at self.old index)) }
        ensures notes { notes.new.items ≡ notes.old.items ++ given_notes how (find is_ready (queue_at self.old index)) }
    {
        let queue = self.queues.queue_mut(index);
        let arrival = give(queue, how, notes);
        let ready = queue.ready();
        self.queues.count_taking(index, ready);
        arrival
    }

    /// Returns the message of the queue at `index` that is held by `holder`. `arrival` is the number that
    /// [`Depot::take_at`] returned for it.
    pub fn held(&self, index: usize, holder: &Holder, arrival: u64) -> Option<&Entry>
        requires { index < length self.now.topology.queues }
        ensures { option_map (λ e. e.now) result ≡ find (is_held_as holder.now) (queue_at self.now index) }
    {
        self.queues.queue(index).held(holder, arrival)
    }

    /// Removes the ready messages of the queue at `index`, in the order of arrival, with a note for each, and returns their number. Held
    /// messages stay. Fails only if there is a ready message and an allocation fails; only capacity may have grown then.
    pub fn purge_at(&mut self, index: usize, notes: &mut Notes) -> Result<usize, AllocError>
        requires { index < length self.old.topology.queues }
        ensures ok { IfOk result (λ count.
            IsPurgedBy self.old (queue_name self.old.topology index) notes.old.items notes.new.items count self.new) }
        ensures unchanged { OnErr result (self.new ≡ self.old) }
        ensures notes { OnErr result (notes.new.items ≡ notes.old.items) }
        ensures wanted { OnErr result (0 < ready_count (queue_at self.old index)) }
    {
        let topology = self.router.topology();
        topology.ghost_is_well_formed();
        let name = &topology.queue(index).name;
        purge_in(self.queues.queue_mut(index), name, notes)
    }

    /// Returns an iterator over the entries of the queue at `index`, ready and held, in the order of arrival; empty if there is no such queue.
    pub fn walk(&self, index: usize) -> Walk<'_>
        ensures { result ≡ queue_at self.now index }
    {
        self.queues.walk(index)
    }

    /// Returns, for each queue, the index of the queue with its name in `topology`, or an index past the end of that topology's queues if there is none.
    /// Fails only if an allocation fails.
    pub fn indices_in(&self, alloc: Global, topology: &Topology) -> Result<Vec<usize>, AllocError>
        ensures { IfOk result (λ places. AreMoved (queue_names self.now.topology.queues) (queue_names topology.now.queues) places.items) }
    {
        indices_in(alloc, self.router.topology(), topology)
    }

    /// Moves all messages of `old` into this depot, which has none: each queue gets the messages of its name, each marked as one that a reload found
    /// there. `indices` is `old.indices_in(..)`, and no queue that this depot lacks has a message. The number of publishes becomes that of `old`.
    /// Never allocates; the only work for a message is setting its mark.
    pub fn take_over(&mut self, old: Depot, indices: &[usize])
        // What the caller knows of the table and of the queues.
        requires moved { AreMoved (queue_names old.topology.queues) (queue_names self.old.topology.queues) indices.now }
        requires empty { self.old.queues ≡ replicate (length self.old.topology.queues) [] }
        requires gone { GoneAreEmpty old (queue_names self.old.topology.queues) }
        // Each queue has the entries that `old` has under its name; the frame.
        ensures entries { (q : Text) → entries_named self.new q ≡ map survived_now (entries_named old q) }
        ensures published { self.new.published ≡ old.published }
        ensures topology { self.new.topology ≡ self.old.topology }
    {
        self.router.topology().ghost_is_well_formed();
        old.router.topology().ghost_is_well_formed();
        let Depot {
            router: _,
            queues,
            published,
            keeps_notes,
        } = old;
        self.queues.take_over(queues, indices);
        self.published = published;
        self.keeps_notes = keeps_notes;
    }
}

/// Shows that in any depot the queue at an index is the one with its name. Does nothing at run time.
pub fn ghost_indices_are_named()
    ensures { (s : Store) (place : ℕ) → IsStoreWhole s → place < length s.topology.queues → IsQueueNamed s place }
{}
