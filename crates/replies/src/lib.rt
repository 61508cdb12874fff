//! The methods that the broker sends, and what a step sends and notes.
//!
//! Start at [`Step`]. Each contract says which send of the model (its `Step` and `Deliveries`) is built, and that it goes to the
//! given connection (`specs/Sent.antt`).
#![tactic(auto)]

mod answering;
mod answers;
mod closes;
mod contents;
mod steps;

pub use answering::{
    answer_cancel, answer_consume, answer_purge, answer_queue_declare, answer_select,
};
pub use answers::{exchange_ok, flow_ok, get_empty, open_ok, qos_ok, recover_ok};
pub use closes::{channel_close, channel_close_ok, connection_close, connection_close_ok};
pub use contents::{deliver, get_ok, return_if};
pub use steps::Step;
