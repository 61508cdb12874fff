//! One line of members who take turns, and of whom some sleep. Start with [`Line`].
#![tactic(auto)]

mod line;
mod picking;
mod places;

pub use line::Line;
pub use picking::{Takers, pick};
pub use places::Tests;
