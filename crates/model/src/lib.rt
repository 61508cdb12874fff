//! The words of all of warren: plain data, and the definitions of what holds of it.
//!
//! The data has no behaviour of its own. The definitions are in `specs/`, one topic a file, and every contract of
//! the crates above is stated with them: start with `docs/inside/MODEL.md`, which lists them in reading order.
#![tactic(auto)]

mod bodies;
mod contents;
mod deliveries;
mod events;
pub mod limits;
mod messages;
mod methods;
mod notes;
mod numbers;
mod obstacles;
mod parts;
mod places;
mod sizes;
mod tables;
mod texts;
mod topologies;

pub use bodies::Body;
pub use contents::{Content, Fields, Form, Properties};
pub use deliveries::{ChannelId, Delivery};
pub use events::{Arrival, Command, Event, Phase, Send};
pub use messages::{Entry, Holder, Mark, Message, Taker, User};
pub use methods::{
    Ack, Cancel, Close, Consume, Deliver, ExchangeDeclare, Get, GetOk, Method, Nack, Open, Publish,
    Purge, Qos, QueueDeclare, QueueDeclared, Reject, Return, Start, StartOk, Tuning,
};
pub use notes::{Answer, Cause, Note, Way};
pub use numbers::{Ids, reply_text};
pub use obstacles::Obstacle;
pub use parts::first_part;
pub use tables::Table;
pub use texts::{Text, Token};
pub use topologies::{Binding, DeclaredQueue, Destination, Exchange, ExchangeKind, Mode};
