//! A message that a guarantee endangers.

use model::Obstacle;

/// A message that a guarantee endangers.
#[derive(Drop)]
pub struct Danger {
    /// The index of the guarantee.
    pub guarantee: usize,
    /// The obstacle that reports the message.
    pub obstacle: Obstacle,
}
