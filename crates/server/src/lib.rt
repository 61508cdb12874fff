//! The program without its process: what each command answers, refuses and prints.
//!
//! Start with [`program`]; [`serve_clients`] is the command `serve`.
#![tactic(auto)]

mod answering;
mod builtin;
mod clients;
mod file_refusals;
mod filing;
mod judging;
mod parts;
mod refusals;
mod replaying;
mod routes;
mod starting;
mod stated;
mod storage;
mod streams;
mod verifying;

pub use answering::{answer_asked, program, refuse_words};
pub use clients::{
    Ended, Listener, Listening, ServeArguments, Service, begin, serve_clients, turns_of,
};
pub use command_line::command;
pub use parts::has_bytes_left;
pub use refusals::{CommandRefusal, Report, put_out_of_memory, put_refusal};
pub use replaying::{BrokerFiles, in_force};
pub use routes::routed;
pub use serving::{Server, Wire, serve};
pub use starting::started;
pub use storage::{Files, NotWritten, Unread};
pub use streams::put;
