//! What scenarios of every crate share: comparisons, moments to wait for, and the count of failures.
//!
//! Start with [`expect`] and [`Sums`].
#![tactic(auto)]

mod expectations;
mod moments;
mod sums;

pub use expectations::{Unmet, expect, expect_bytes, expect_number, value_of};
pub use moments::{earliest_end, expect_past};
pub use sums::Sums;
