//! A queue: the messages that wait for a consumer, in the order of arrival. Start with [`Store`], which says what each call does.
//!
//! A caller sees a queue as a list of entries and its room, the number of pushes that need no allocation (`specs/Line.antt`).
//! `reserve` makes room and `push` spends it, so a publish to many queues reserves in each of them first, and pushes only after all
//! reservations have succeeded. `Listed` implements `Store` over a plain vector, `Indexed` without scanning the messages.
#![tactic(auto)]

mod block;
mod blocks;
mod entries;
mod indexed;
mod limits;
mod listed;
mod lists;
mod signs;
mod slots;
mod stores;
mod walks;

pub use indexed::Indexed;
pub use listed::Listed;
pub use stores::Store;
pub use walks::Walk;
