//! Checks certificates, reads and writes their files, and admits topologies by them. Start with [`check`] and [`admit`].
//!
//! [`Walk`] is the automaton of the tracked patterns: where letters lead, and which states are good. A check judges a list of states over
//! it; a search explores it.
#![tactic(auto)]

mod admitted;
mod certificates;
mod certified;
mod checking;
mod copies;
mod covering;
mod drafts;
mod faults;
mod form;
mod forms;
mod indices;
mod order;
mod reading;
mod refutations;
mod state_texts;
mod targets;
mod unwritten;
mod walk;
mod writing;

pub use admitted::{Checked, admit};
pub use certificates::Certificate;
pub use certified::deaths_for;
pub use checking::{check, check_by};
pub use covering::Covering;
pub use drafts::Draft;
pub use faults::CertFault;
pub use forms::Form;
pub use indices::{MOST_PATTERNS, at_indices, passes_over};
pub use json_file::{FileCause, FileCause as Bad};
pub use refutations::{Refutation, disprove, refutes};
pub use unwritten::Unwritten;
pub use walk::Walk;
