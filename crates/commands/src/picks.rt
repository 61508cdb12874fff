//! Identifies consumers.

/// A consumer, by its numbers.
#[derive(Clone, Copy, PartialEq, Eq, Debug, Drop)]
pub struct Pick {
    pub connection: u64,
    pub channel: u16,
    /// Its number on the channel: consumers of a channel are numbered in the order in which they are made.
    pub number: u64,
}

/// Whether a consumer can take a message now.
#[derive(Clone, Copy, PartialEq, Eq, Debug, Drop)]
pub enum Taking {
    /// The consumer doesn't exist.
    Gone,
    /// It can't take a message now; it takes from the queue at this index.
    Nothing(usize),
    /// It can take a message, from the queue at this index.
    From(usize),
}
