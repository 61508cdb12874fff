//! Matches routing keys against topic patterns. Start with [`Matcher`], which [`Trie`] and [`Plain`] implement.
#![tactic(auto)]

mod attempts;
mod building;
mod children;
mod counts;
mod ends;
mod exits;
mod indices;
mod matchers;
mod matching;
mod nodes;
mod patterns;
mod pieces;
mod plain;
mod steps;
mod tries;
mod walks;

pub use matchers::Matcher;
pub use matching::covers_key;
pub use model::Token;
pub use patterns::{BadPattern, Pattern, is_pattern, tokens_of};
pub use pieces::split;
pub use plain::Plain;
pub use tries::Trie;
