//! Parses and answers the lines of cases: their words, files and answers, and the lines about routing, certificates and queues.
//!
//! Start with [`LineAnswer`], and the `answer` of `routing`, `certificates` and `stores`.
#![tactic(auto)]

mod answers;
pub mod certificates;
mod files;
mod hex_words;
pub mod routing;
pub mod stores;
mod words;

pub use answers::{LineAnswer, Unanswered};
pub use files::{file_of, named_and_edits, put_read, put_refused, sources_of, text_of_kind};
pub use hex_words::bytes_of;
pub use words::{cut, number_of, words_of};
