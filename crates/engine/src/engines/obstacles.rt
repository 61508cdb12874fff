//! Finds the obstacle to a reload before the reload is done.

use crate::engines::Engine;
use crate::setups::Setup;
use model::Obstacle;
use std::alloc::{AllocError, Global};

impl Engine {
    ghost use Rattle.std.specs.Prelude.{IfOk, OnErr};
    ghost use Rattle.engine.specs.World.{world_of};
    ghost use Rattle.engine.specs.Offered.{JudgesOffered};
    ghost use Rattle.engine.specs.Allocating.{JudgingOfferMayAllocate};

    /// Returns the first obstacle to a reload to `setup`, with which [`Engine::reload`] would refuse it now, or `None` if there is
    /// none. Changes nothing, and copies nothing of `setup`.
    ///
    /// Fails only if an allocation fails. It may allocate only if each queue in use is declared in `setup` and one of its guarantees is a `never`, or if
    /// the first queue in use that is not declared has a name of more than 22 bytes.
    pub fn obstacle(&self, alloc: Global, setup: &Setup) -> Result<Option<Obstacle>, AllocError>
        ensures reported { IfOk result (JudgesOffered (world_of self.now) setup.now) }
        ensures wants { OnErr result (JudgingOfferMayAllocate (world_of self.now) setup.now) }
    {
        let checked = setup.checked();
        self.broker
            .obstacle(alloc, checked.topology(), checked.guarantees())
    }
}
