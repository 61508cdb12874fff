//! The state of one channel between frames: what it has begun and not completed.

use crate::bodies::Pieces;
use model::{Properties, Publish};

/// A publish whose body is coming: `size` bytes are declared, `body` has those that came.
#[derive(Drop)]
pub(crate) struct Gathering {
    pub(crate) publish: Publish,
    pub(crate) properties: Properties,
    pub(crate) size: u64,
    pub(crate) body: Pieces,
}

/// A body that is counted and dropped: `size` bytes are declared, `count` of them came.
#[derive(Clone, Copy, Drop)]
pub(crate) struct Dropping {
    pub(crate) size: u64,
    pub(crate) count: u64,
}

/// The frame that a channel awaits next.
#[derive(Drop)]
pub(crate) enum Awaited {
    /// A method.
    Nothing,
    /// The header of this publish.
    WantsHeader(Publish),
    /// The next piece of this body.
    WantsBody(Gathering),
    /// The next piece of this body, which is dropped: the content is too large, or contents are only counted.
    Drops(Dropping),
}
