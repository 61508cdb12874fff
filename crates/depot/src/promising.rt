//! Room for the dead letters of a rejection. Start with [`make_rooms`].

ghost use Rattle.std.specs.Prelude.{◌≡◌, ◌==◌, ◌+◌, ◌<◌, length, cond, OnOk, OnErr};
ghost use Rattle.depot.specs.Store.{entries_of};
ghost use Rattle.depot.specs.Dying.{arriving_at, EnterBelow};
ghost use Rattle.depot.specs.Turns.{room_at, times, IsRoomy, MakesRoom, MakesAtMost, GainsNone, AreEmptied};

use crate::arrivals::Arrival;
use crate::queues::{Queue, Queues};
use queue::Store;
use std::alloc::AllocError;

/// Reserves room for one more push in `queue`. Fails only if an allocation fails; entries and room have not changed then.
fn reserve_one(queue: &mut Queue) -> Result<(), AllocError>
    ensures entries { queue.new.entries ≡ queue.old.entries }
    ensures room { OnOk result (queue.new.room ≡ queue.old.room + 1) }
    ensures same { OnErr result (queue.new.room ≡ queue.old.room) }
{
    let Some(room) = queue.room().checked_add(1) else {
        return Err(AllocError);
    };
    queue.reserve(room)
}

/// Reserves room for one push more in the queue at index `place`. Fails only if an allocation fails; entries and room have not changed then.
fn reserve_at(queues: &mut Queues, place: usize) -> Result<(), AllocError>
    requires { place < length queues.old }
    ensures same { entries_of queues.new ≡ entries_of queues.old }
    ensures len { length queues.new ≡ length queues.old }
    ensures room { OnOk result (MakesRoom queues.old queues.new (λ k. cond (k == place) 1 0)) }
    ensures few { MakesAtMost queues.old queues.new (λ k. cond (k == place) 1 0) }
{
    reserve_one(queues.queue_mut(place))
}

/// Reserves room for one push for each of `arrivals`, in its queue. Fails only if an allocation fails; some of the room is reserved
/// then.
fn reserve_all(queues: &mut Queues, arrivals: &[Arrival]) -> Result<(), AllocError>
    requires { EnterBelow (length queues.old) arrivals.now }
    ensures same { entries_of queues.new ≡ entries_of queues.old }
    ensures len { length queues.new ≡ length queues.old }
    ensures room { OnOk result (MakesRoom queues.old queues.new (λ k. times k (arriving_at arrivals.now))) }
    ensures few { MakesAtMost queues.old queues.new (λ k. times k (arriving_at arrivals.now)) }
{
    for arrival in arrivals {
        reserve_at(queues, arrival.place)?;
    }
    Ok(())
}

/// Gives back the room of the queue at index `place`. Never allocates.
fn give_back_at(queues: &mut Queues, place: usize)
    requires { place < length queues.old }
    ensures same { entries_of queues.new ≡ entries_of queues.old }
    ensures len { length queues.new ≡ length queues.old }
    ensures gains { GainsNone queues.old queues.new }
    ensures emptied { room_at queues.new place ≡ 0 }
{
    queues.queue_mut(place).give_back();
}

/// Gives back the room of each queue that one of `arrivals` enters. Never allocates.
fn give_back_all(queues: &mut Queues, arrivals: &[Arrival])
    requires { EnterBelow (length queues.old) arrivals.now }
    ensures same { entries_of queues.new ≡ entries_of queues.old }
    ensures len { length queues.new ≡ length queues.old }
    ensures gains { GainsNone queues.old queues.new }
    ensures emptied { AreEmptied queues.new (λ k. times k (arriving_at arrivals.now)) }
{
    for arrival in arrivals {
        give_back_at(queues, arrival.place);
    }
}

/// Reserves room for one push for each of `arrivals`, in its queue, and for no other: a queue has exactly as much then as letters
/// enter it. Fails only if an allocation fails; no queue has more room then than before.
pub(crate) fn make_rooms(queues: &mut Queues, arrivals: &[Arrival]) -> Result<(), AllocError>
    requires { EnterBelow (length queues.old) arrivals.now }
    // The frame, also after a failure: no entry changes, and no queue is added.
    ensures same { entries_of queues.new ≡ entries_of queues.old }
    ensures len { length queues.new ≡ length queues.old }
    // On success each queue has room for its letters, and at most that much more than before; after a failure none has gained any.
    ensures room { OnOk result (IsRoomy queues.new (arriving_at arrivals.now)) }
    ensures few { OnOk result (MakesAtMost queues.old queues.new (λ k. times k (arriving_at arrivals.now))) }
    ensures gains { OnErr result (GainsNone queues.old queues.new) }
{
    give_back_all(queues, arrivals);
    if reserve_all(queues, arrivals).is_err() {
        give_back_all(queues, arrivals);
        return Err(AllocError);
    }
    Ok(())
}
