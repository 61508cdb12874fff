//! Reads replay scripts and prints transcripts.
//!
//! Start with [`read_script`] and [`transcript_text`].
#![tactic(auto)]

mod lines;
mod reloads;
mod script;
mod transcript;

pub use lines::Arrival;
pub use reloads::ReloadFiles;
pub use script::{BadScript, read_script};
pub use transcript::{name_word, obstacle_line, put_line, transcript_text};
