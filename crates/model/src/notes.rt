//! Notes: what the broker records of each step, for audit and for the theorems. Start with [`Note`].

use crate::obstacles::Obstacle;
use crate::texts::Text;

/// How a publish was confirmed.
#[derive(Clone, Copy, PartialEq, Eq, Debug, Drop)]
pub enum Answer {
    Ack,
    Nack,
}

/// How a message entered a queue.
#[derive(Clone, Copy, PartialEq, Eq, Debug, Drop)]
pub enum Way {
    /// By its publish.
    Publish,
    /// As a dead letter.
    Dead,
}

/// Why a message left a queue.
#[derive(Clone, Copy, PartialEq, Eq, Debug, Drop)]
pub enum Cause {
    /// It was acknowledged.
    Acked,
    /// It was given out without acknowledgement.
    Auto,
    /// It was rejected and not requeued.
    Rejected,
    /// Its queue was purged.
    Purged,
}

/// One thing that happened to a message, or a reload. `number` is the publish number of the message: publishes are numbered from 1 over the whole broker.
pub enum Note {
    /// A publish was taken. In confirm mode, `confirm` is its confirm number on its channel.
    Published {
        number: u64,
        connection: u64,
        channel: u16,
        exchange: Text,
        key: Text,
        confirm: Option<u64>,
    },
    /// The message entered the queue, at its end.
    Entered {
        number: u64,
        queue: Text,
        way: Way,
    },
    /// The queue was full and refused the message.
    Refused {
        number: u64,
        queue: Text,
    },
    /// The publish was mandatory, was routed nowhere, and was sent back.
    Returned {
        number: u64,
    },
    /// The publish was confirmed.
    Confirmed {
        number: u64,
        answer: Answer,
    },
    /// The message left the queue.
    Left {
        number: u64,
        queue: Text,
        cause: Cause,
    },
    /// A reload was done: what it offered is in force.
    Reloaded,
    /// A reload was refused for this obstacle, and changed nothing.
    ReloadRefused(Obstacle),
}

/// Not derived: a derived drop is expanded, and proved again, in each function that drops the value.
impl Drop for Note {
    fn drop(self) {
        match self {
            Note::Published {
                number: _,
                connection: _,
                channel: _,
                exchange: _,
                key: _,
                confirm: _,
            } => {}
            Note::Entered {
                number: _,
                queue: _,
                way: _,
            } => {}
            Note::Refused {
                number: _,
                queue: _,
            } => {}
            Note::Returned { number: _ } => {}
            Note::Confirmed {
                number: _,
                answer: _,
            } => {}
            Note::Left {
                number: _,
                queue: _,
                cause: _,
            } => {}
            Note::Reloaded => {}
            Note::ReloadRefused(_) => {}
        }
    }
}
