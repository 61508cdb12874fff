//! Finds messages in queues that a new guarantee endangers.

ghost use Rattle.std.specs.Prelude.{◌≡◌, ◌≤◌, Decides, IfOk, IfSome, OnErr, false, length, true};
ghost use Rattle.model.specs.Topology.{queue_names};
ghost use Rattle.model.specs.declared.topologies.Mode.TheVariants.{Never};
ghost use Rattle.model.specs.declared.obstacles.Obstacle.TheVariants.{Breaks};
ghost use Rattle.paths.specs.Deaths.{AreDeaths};
ghost use Rattle.reloading.specs.First.{ReportsFirst};
ghost use Rattle.reloading.specs.Forbidding.{AreForbidding, EndangersBelow, IsFixedFor, NoneForbids, NoneMay};
ghost use Rattle.reloading.specs.Obstacles.{AreAlike, ReportsQueues};
ghost use Rattle.reloading.specs.Narrowing.{EntriesReport, ReportsMessage, QueuesReport, ReportsBelow};
ghost use Rattle.reloading.specs.Allocating.{HasNever};

use crate::danger::Danger;
use crate::dangers::{all_forbidding, first_endangering, first_may, fixed_for};
use crate::live_queues::LiveQueues;
use crate::narrowing::{bound_of, ends_at, joined, obstacle_of};
use crate::passed::{keep, like_at, none_passed, slot_of};
use exchange_graph::Topology;
use guarantees::Guarantee;
use model::{Message, Mode, Obstacle, Text};
use paths::{Deaths, Explored, Leading};
use std::alloc::{AllocError, Global};

/// Returns the obstacle which says that `message`, in `queue`, breaks guarantee number `guarantee`, counted from 1.
fn breaks(queue: &Text, message: &Message, guarantee: usize) -> Result<Obstacle, AllocError>
    ensures { IfOk result (λ o. o ≡ Breaks queue.now message.now.first_key guarantee) }
{
    Ok(Obstacle::Breaks {
        queue: queue.clone()?,
        key: message.first_key().clone()?,
        guarantee,
    })
}

/// Returns the danger to `message`, which is in `queue`, from the first guarantee before index `bound` that endangers it, if one does.
fn endangered(
    alloc: Global,
    topology: &Topology,
    guarantees: &[Guarantee],
    forbidding: &[Option<Leading>],
    bound: usize,
    fixed: Option<&Explored>,
    queue: &Text,
    message: &Message,
) -> Result<Option<Danger>, AllocError>
    requires bound { bound ≤ length guarantees.now }
    requires forbidding { AreForbidding topology.now guarantees.now (length guarantees.now) forbidding.now }
    requires fixed { IfSome fixed (λ explored. IsFixedFor topology.now queue.now explored.now) }
    ensures { IfOk result (ReportsBelow (ReportsMessage topology.now queue.now message.now) guarantees.now bound) }
{
    let name = queue.as_bytes();
    let first = first_endangering(
        alloc, topology, guarantees, forbidding, bound, fixed, name, message,
    )?;
    match first {
        Some(guarantee) => Ok(Some(Danger {
            guarantee,
            obstacle: breaks(queue, message, guarantee + 1)?,
        })),
        None => Ok(None),
    }
}

/// Returns what [`endangered`] does; `None` at once if there is a message `like`, which has the exchanges and keys of `message` and is endangered by
/// none of these guarantees.
fn endangered_next(
    alloc: Global,
    topology: &Topology,
    guarantees: &[Guarantee],
    forbidding: &[Option<Leading>],
    bound: usize,
    fixed: Option<&Explored>,
    queue: &Text,
    like: Option<&Message>,
    message: &Message,
) -> Result<Option<Danger>, AllocError>
    // What the caller knows: `forbidding` and `fixed` are of this topology and queue; `like` has the same keys and is not endangered.
    requires bound { bound ≤ length guarantees.now }
    requires forbidding { AreForbidding topology.now guarantees.now (length guarantees.now) forbidding.now }
    requires fixed { IfSome fixed (λ explored. IsFixedFor topology.now queue.now explored.now) }
    requires alike { IfSome like (λ m. AreAlike m.now message.now) }
    requires passed { IfSome like (λ m. EndangersBelow topology.now guarantees.now bound queue.now m.now) }
    // The first of these guarantees that endangers the message is reported, with the obstacle; with `None` there is none.
    ensures { IfOk result (ReportsBelow (ReportsMessage topology.now queue.now message.now) guarantees.now bound) }
{
    match like {
        Some(_) => Ok(None),
        None => endangered(
            alloc, topology, guarantees, forbidding, bound, fixed, queue, message,
        ),
    }
}

/// Finds the first guarantee before index `bound` that endangers a message of the queue at index `place`, and returns the first message that it
/// endangers. The guarantees before index `least` endanger none.
fn first_of_entries<S: LiveQueues>(
    alloc: Global,
    live: &S,
    topology: &Topology,
    guarantees: &[Guarantee],
    forbidding: &[Option<Leading>],
    bound: usize,
    fixed: Option<&Explored>,
    least: usize,
    place: usize,
    queue: &Text,
) -> Result<Option<Danger>, AllocError>
    requires bound { bound ≤ length guarantees.now }
    requires forbidding { AreForbidding topology.now guarantees.now (length guarantees.now) forbidding.now }
    requires fixed { IfSome fixed (λ explored. IsFixedFor topology.now queue.now explored.now) }
    requires least { NoneMay topology.now guarantees.now least queue.now }
    ensures { IfOk result (ReportsBelow (EntriesReport topology.now (S.entries live.now) place queue.now) guarantees.now bound) }
{
    let mut passed = none_passed();
    let mut slot = 0;
    let mut found = None;
    'entries: for entry in live.walk(place) {
        let message = &entry.message;
        slot = slot_of(&passed, slot, message);
        let like = like_at(&passed, slot, message);
        let left = bound_of(&found, bound);
        let more = endangered_next(
            alloc, topology, guarantees, forbidding, left, fixed, queue, like, message,
        )?;
        found = joined(more, found);
        if ends_at(&found, least) {
            return Ok(found);
        }
        keep(&mut passed, slot, message);
    }
    Ok(found)
}

/// Returns what [`first_of_entries`] does, without looking at the queue's messages if no guarantee before index `bound` may endanger one. The queue
/// has a dead-letter exchange.
fn first_of_dying<S: LiveQueues>(
    alloc: Global,
    live: &S,
    topology: &Topology,
    deaths: &Deaths,
    guarantees: &[Guarantee],
    forbidding: &[Option<Leading>],
    bound: usize,
    place: usize,
    queue: &Text,
) -> Result<Option<Danger>, AllocError>
    requires bound { bound ≤ length guarantees.now }
    requires deaths { AreDeaths topology.now deaths.now }
    requires forbidding { AreForbidding topology.now guarantees.now (length guarantees.now) forbidding.now }
    ensures { IfOk result (ReportsBelow (EntriesReport topology.now (S.entries live.now) place queue.now) guarantees.now bound) }
{
    let name = queue.as_bytes();
    let fixed = fixed_for(topology, deaths, name);
    match first_may(topology, guarantees, forbidding, bound, fixed, name) {
        Some(least) => first_of_entries(
            alloc, live, topology, guarantees, forbidding, bound, fixed, least, place, queue,
        ),
        None => Ok(None),
    }
}

/// Returns what [`first_of_entries`] does, for any queue of the old topology; `None` at once if it has no dead-letter exchange in the new topology,
/// or is not there.
fn first_of_queue<S: LiveQueues>(
    alloc: Global,
    live: &S,
    topology: &Topology,
    deaths: &Deaths,
    guarantees: &[Guarantee],
    forbidding: &[Option<Leading>],
    bound: usize,
    place: usize,
    queue: &Text,
) -> Result<Option<Danger>, AllocError>
    requires bound { bound ≤ length guarantees.now }
    requires deaths { AreDeaths topology.now deaths.now }
    requires forbidding { AreForbidding topology.now guarantees.now (length guarantees.now) forbidding.now }
    ensures { IfOk result (ReportsBelow (EntriesReport topology.now (S.entries live.now) place queue.now) guarantees.now bound) }
{
    match topology.dead_letter(queue.as_bytes(), &[]) {
        Some(_) => first_of_dying(
            alloc, live, topology, deaths, guarantees, forbidding, bound, place, queue,
        ),
        None => Ok(None),
    }
}

/// Finds the first guarantee that endangers a message of any queue, and returns the first message that it endangers. All messages are walked once.
fn first_of_queues<S: LiveQueues>(
    alloc: Global,
    live: &S,
    old: &Topology,
    topology: &Topology,
    deaths: &Deaths,
    guarantees: &[Guarantee],
    forbidding: &[Option<Leading>],
) -> Result<Option<Danger>, AllocError>
    requires deaths { AreDeaths topology.now deaths.now }
    requires forbidding { AreForbidding topology.now guarantees.now (length guarantees.now) forbidding.now }
    ensures { IfOk result (ReportsBelow (QueuesReport topology.now (queue_names old.now.queues) (S.entries live.now)) guarantees.now (length guarantees.now)) }
{
    let mut found = None;
    for place in 0..old.queues().len() {
        let queue = &old.queue(place).name;
        let bound = bound_of(&found, guarantees.len());
        let more = first_of_queue(
            alloc, live, topology, deaths, guarantees, forbidding, bound, place, queue,
        )?;
        found = joined(more, found);
    }
    Ok(found)
}

/// Returns whether the guarantee forbids a queue.
fn forbids(guarantee: &Guarantee) -> bool
    ensures { Decides result (guarantee.now.mode ≡ Never) }
{
    match guarantee.mode() {
        Mode::Reaches => false,
        Mode::Never => true,
    }
}

/// Returns whether one of the guarantees forbids a queue.
fn some_forbid(guarantees: &[Guarantee]) -> bool
    ensures none { result ≡ false → NoneForbids guarantees.now (length guarantees.now) }
    ensures some { result ≡ true → HasNever guarantees.now }
{
    for at in 0..guarantees.len() {
        if forbids(&guarantees[at]) {
            return true;
        }
    }
    false
}

/// Returns the first message that one of the guarantees endangers, guarantee by guarantee. Fails only if one of them is a `never` and an allocation
/// fails.
///
/// What dead letters reach is explored once for all guarantees, and all messages are walked once. Once a guarantee endangers a message, later messages are
/// judged only by the guarantees before it.
pub fn first_breach<S: LiveQueues>(
    alloc: Global,
    live: &S,
    old: &Topology,
    topology: &Topology,
    guarantees: &[Guarantee],
) -> Result<Option<Obstacle>, AllocError>
    ensures reported { IfOk result (λ o. ReportsFirst (ReportsQueues topology.now (queue_names old.now.queues) (S.entries live.now)) guarantees.now o) }
    ensures never { OnErr result (HasNever guarantees.now) }
{
    if !some_forbid(guarantees) {
        return Ok(None);
    }
    let deaths = Deaths::of(alloc, topology)?;
    let forbidding = all_forbidding(alloc, topology, &deaths, guarantees)?;
    let forbidding = forbidding.as_slice();
    let found = first_of_queues(alloc, live, old, topology, &deaths, guarantees, forbidding)?;
    Ok(obstacle_of(found))
}
