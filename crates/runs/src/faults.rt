//! Why a reload was refused.

ghost use Rattle.std.specs.Prelude.{◌≡◌, Some};
ghost use Rattle.runs.specs.Faults.{obstacle_in};

use model::{Obstacle, Text};
use std::alloc::AllocError;
use std::mem;

/// Why a reload was refused: its first obstacle, or an allocation failure.
#[derive(Drop)]
pub enum ReloadFault {
    /// The new topology lacks this queue, while a message is in it or a consumer takes from it.
    InUse(Text),
    /// A message in this queue, first published with this key, could reach, by dead-lettering, a queue that a guarantee forbids to it. The
    /// guarantee's number counts from 1.
    Breaks {
        queue: Text,
        key: Text,
        guarantee: usize,
    },
    /// An allocation failed.
    Memory,
}

/// Moves a text out, and leaves an empty one.
fn taken(text: &mut Text) -> Text
    ensures { result ≡ text.old }
{
    mem::replace(text, Text::empty())
}

impl From<AllocError> for ReloadFault {
    ghost use Rattle.std.specs.Prelude.{◌≡◌};
    ghost use Rattle.runs.specs.declared.faults.ReloadFault.TheVariants.{Memory};

    ghost from_gives = { λ _ r. r ≡ Memory };

    fn from(_: AllocError) -> ReloadFault {
        ReloadFault::Memory
    }
}

impl ReloadFault {
    /// Converts an obstacle into the fault that reports it. Never allocates.
    pub fn of(mut obstacle: Obstacle) -> ReloadFault
        ensures { obstacle_in result ≡ Some obstacle }
    {
        match &mut obstacle {
            Obstacle::InUse(queue) => ReloadFault::InUse(taken(queue)),
            Obstacle::Breaks {
                queue,
                key,
                guarantee,
            } => ReloadFault::Breaks {
                queue: taken(queue),
                key: taken(key),
                guarantee: *guarantee,
            },
        }
    }

    /// Returns the obstacle, or `None` if an allocation failed.
    pub fn obstacle(self) -> Option<Obstacle>
        ensures { result ≡ obstacle_in self }
    {
        match self {
            ReloadFault::InUse(queue) => Some(Obstacle::InUse(queue)),
            ReloadFault::Breaks {
                queue,
                key,
                guarantee,
            } => Some(Obstacle::Breaks {
                queue,
                key,
                guarantee,
            }),
            ReloadFault::Memory => None,
        }
    }
}
