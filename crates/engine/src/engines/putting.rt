//! Puts another topology in force between events.

use crate::engines::Engine;
use crate::setups::Setup;
use certificate::Checked;
use model::User;
use runs::ReloadFault;
use std::alloc::{AllocError, Global};

impl Engine {
    ghost use Rattle.std.specs.Prelude.{◌≡◌, OnOk, OnErr};
    ghost use Rattle.broker.specs.Waiting.{LinesMove};
    ghost use Rattle.engine.specs.InForce.{in_force};
    ghost use Rattle.engine.specs.World.{world_of};
    ghost use Rattle.runs.specs.Reloaded.{IsMemory, IsPutInForce, NothingHinders, ReportsReload};
    ghost use Rattle.engine.specs.Allocating.{ReloadMayAllocate};

    /// Puts the topology, the guarantees and the users of a setup in force. Messages in queues are marked as ones that the reload found there.
    /// Connections stay, with their consumers, their unacknowledged messages, their unread input and their output. The order of each queue's
    /// consumers stays, and the round over the queues starts at the first.
    ///
    /// Refused by the first obstacle: a queue that is no longer declared while messages are in it or consumers take from it, or else a message that
    /// could reach a queue that a guarantee forbids it by dead-lettering. A refused reload changes nothing.
    /// Also fails if an allocation fails; nothing has changed then. Without an obstacle it always allocates, 1,024 slots for routes at least. With one it
    /// allocates only if [`Engine::obstacle`] does.
    pub fn reload(
        &mut self,
        alloc: Global,
        checked: Checked,
        users: Vec<User>,
    ) -> Result<(), ReloadFault>
        // Either it is done, or the first obstacle is reported and nothing has changed.
        ensures reported { ReportsReload (world_of self.old) (in_force checked users.items) result (world_of self.new) }
        ensures kept { OnErr result (self.new ≡ self.old) }
        // Each queue's order of consumers is kept.
        ensures lines { OnOk result (LinesMove self.old.broker self.new.broker) }
        // When it may fail to allocate.
        ensures wants { IsMemory result → ReloadMayAllocate (world_of self.old) (in_force checked users.items) }
    {
        let setup = Setup::new(checked, users);
        if let Some(obstacle) = self.obstacle(alloc, &setup)? {
            return Err(ReloadFault::of(obstacle));
        }
        self.put_in_force(alloc, setup)?;
        Ok(())
    }

    /// Puts `setup` in force, as [`Engine::reload`] does, without looking for an obstacle: there is none. Fails only if an allocation fails; nothing
    /// has changed then. It always allocates: the slots for routes, 1,024 whatever `setup` declares, and what is kept of each queue.
    pub fn put_in_force(&mut self, alloc: Global, setup: Setup) -> Result<(), AllocError>
        requires nothing { NothingHinders (world_of self.old) setup }
        ensures done { OnOk result (IsPutInForce (world_of self.old) setup (world_of self.new)) }
        ensures kept { OnErr result (self.new ≡ self.old) }
        // Each queue's order of consumers is kept.
        ensures lines { OnOk result (LinesMove self.old.broker self.new.broker) }
    {
        let (checked, users) = setup.into_parts();
        let (topology, guarantees) = checked.into_parts();
        self.broker.reload(alloc, topology)?;
        self.guarantees = guarantees;
        self.users = users;
        Ok(())
    }
}
