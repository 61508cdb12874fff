//! Who takes from a queue, and who can take a message from it now.

ghost use Rattle.std.specs.Prelude.{◌≡◌};
ghost use Rattle.broker.specs.Lines.{is_consumer};
ghost use Rattle.broker.specs.Rounds.{is_of};

use commands::{Core, Pick, Taking};
use waiting_lines::{Takers, Tests};

/// Returns whether the two are the same consumer.
pub(crate) fn is_same(one: Pick, other: Pick) -> bool
    ensures { result ≡ is_consumer one other }
{
    one.connection == other.connection && one.channel == other.channel && one.number == other.number
}

/// Returns whether the consumer `pick` exists and takes from the queue at index `queue`.
pub(crate) fn is_of(core: &Core, queue: usize, pick: Pick) -> bool
    ensures { result ≡ is_of core.now queue pick }
{
    core.ghost_is_kept();
    match core.taking(pick) {
        Taking::Gone => false,
        Taking::Nothing(place) => place == queue,
        Taking::From(place) => place == queue,
    }
}

/// The test of one consumer.
#[derive(Clone, Copy, Debug, Drop)]
pub(crate) struct Same {
    pub pick: Pick,
}

impl Tests<Pick> for Same {
    ghost use Rattle.broker.specs.Lines.{is_consumer};

    ghost passes = { λ s p. is_consumer p s.pick };

    fn passes(&self, item: &Pick) -> bool {
        is_same(*item, self.pick)
    }
}

/// The consumers of the queue at index `queue`, which has a ready message.
#[derive(Drop)]
pub(crate) struct QueueTakers<'a> {
    pub core: &'a Core,
    pub queue: usize,
}

impl Takers<Pick> for QueueTakers<'_> {
    ghost use Rattle.broker.specs.Rounds.{CanTakeFrom, CannotTakeFrom};

    ghost can = { λ t p. CanTakeFrom t.core.now t.queue p };

    ghost cannot = { λ t p. CannotTakeFrom t.core.now t.queue p };

    fn may_take(&self, item: &Pick) -> bool {
        self.core.ghost_is_kept();
        match self.core.taking(*item) {
            Taking::Gone => false,
            Taking::Nothing(_) => false,
            Taking::From(place) => place == self.queue,
        }
    }
}
