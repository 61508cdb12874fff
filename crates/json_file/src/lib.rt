//! Reads JSON files: parses them whole, then reads them member by member.
//!
//! Start with [`parse`]; [`FileCause`] has the refusals.
#![tactic(auto)]

mod arrays;
mod causes;
mod members;

pub use arrays::{FromValue, elements, entries};
pub use causes::FileCause;
pub use members::{
    arguments, has_only, is_filled, optional_number, optional_text, parse, text, truth,
};
