//! Routes messages: exchanges, queues and bindings, and the queues that a key leads to.
//! Start with [`Topology`], or with [`Router`], which also keeps the routes that were taken last.
#![tactic(auto)]

mod dying;
mod edges;
mod ends;
mod fans;
mod kept;
mod keyed;
mod marks;
mod places;
mod reach;
mod routers;
mod routes;
mod scratches;
mod slots;
mod topologies;

pub use dying::{DeadLetter, DeadRoute};
pub use ends::End;
pub use marks::Targets;
pub use routers::Router;
pub use routes::{Access, Found, Route};
pub use scratches::Scratch;
pub use topologies::Topology;
pub use topology_drafts::BadTopology as Bad;
