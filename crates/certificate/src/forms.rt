//! The forms of certificates.

use model::Text;

/// Which of the tracked patterns a certificate's states have numbers for.
#[derive(Drop)]
pub enum Form {
    /// Form 1: all tracked patterns.
    Whole,
    /// Form 2: the tracked patterns at these indices.
    Sliced(Vec<u64>),
    /// Form 3: the tracked patterns at `indices`, for a guarantee with the `except` patterns `excepts`.
    Excepting {
        excepts: Vec<Text>,
        indices: Vec<u64>,
    },
}
