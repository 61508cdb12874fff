//! Decides where messages go when only a state is known of their keys: which tracked patterns accept them.
//! Start with [`tracked_patterns`] and [`Routes`].
//!
//! Names are looked up once: a topology's exchanges and the guarantee's queue become numbered nodes, and its bindings gates between them,
//! each with a test by a tracked pattern (`specs/Gates.antt`). For a `never`, dead letters are gates too (`specs/Deaths.antt`).
#![tactic(auto)]

mod deaths;
mod exits;
mod following;
mod gates;
mod keys;
mod nodes;
mod patterns;
mod places;
mod routes;
mod tracking;

pub use places::indices_to;
pub use routes::Routes;
pub use tracking::tracked_patterns;
