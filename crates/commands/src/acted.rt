//! The outcome of an event.

use channels::{Channel, RunningConnection, Seat};
use replies::Step;

/// What an event ends.
#[derive(Drop)]
pub enum Ends {
    /// Nothing: each consumer still exists.
    Nothing,
    /// A consumer of the event's channel, which was cancelled.
    Consumer(Seat),
    /// All consumers of the event's channel: the channel as it was.
    Channel(Option<Channel>),
    /// All consumers of the event's connection, which is gone or begins anew: the connection as it was, if it was running.
    Connection(Option<RunningConnection>),
}

/// The outcome of an event.
#[derive(Drop)]
pub struct Acted {
    /// What is sent and noted.
    pub step: Step,
    /// What the event ends.
    pub ends: Ends,
}

impl Acted {
    ghost use Rattle.std.specs.Prelude.{◌≡◌};
    ghost use Rattle.commands.specs.Ended.{ends_of};
    ghost use Rattle.commands.specs.declared.acted.Ends.TheVariants as ended;

    /// Makes the outcome of an event that ends no consumer.
    pub(crate) fn staying(step: Step) -> Acted
        ensures { result ≡ record { step = step; ends = ended.Nothing } }
    {
        Acted {
            step,
            ends: Ends::Nothing,
        }
    }

    /// Makes the outcome of an event that ends the consumer at `seat`, if any, and no other.
    pub(crate) fn ending(step: Step, seat: Option<Seat>) -> Acted
        ensures { result ≡ record { step = step; ends = ends_of seat } }
    {
        let ends = match seat {
            Some(seat) => Ends::Consumer(seat),
            None => Ends::Nothing,
        };
        Acted { step, ends }
    }
}
