//! A caller of each crate that a program embeds, as the crate's `CALLING.md` quotes it.
//!
//! Start with the page of the crate that you call.
#![tactic(auto)]

mod certified;
mod conversations;
mod messages;
mod routes;
mod served;

pub use certified::certify;
pub use conversations::answer;
pub use messages::pass_two;
pub use routes::ask_route;
pub use served::serve_client;
