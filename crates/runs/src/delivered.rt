//! A delivery that a machine made.

use notes::Notes;

/// A delivery that was made.
#[derive(Drop)]
pub struct Delivered {
    /// The connection of the consumer that it went to.
    pub connection: u64,
    pub notes: Notes,
}
