//! The phases of a connection, from the protocol header to its end, and who may log in.
//!
//! Start with [`Session`]: the phase of a connection and the limits in force. While the connection runs, the broker performs its
//! commands, and the session learns from the broker's replies whether a close is under way. In every other phase the session
//! answers by itself. Source: AMQP 0-9-1, section 2.2.4, "The Connection Class".
//!
//! [`accepts`] decides whether a response of the mechanism PLAIN names a user of the definitions file with the right password.
//! Sources: RFC 4616, "The PLAIN SASL Mechanism", without an authorization identity; RabbitMQ, "Credentials and Passwords", for
//! the form of a hash.
#![tactic(auto)]

mod answers;
mod examples;
mod hashes;
mod logins;
mod responses;
mod sends;
mod sessions;

pub use examples::ghost_worked_examples;
pub use logins::accepts;
pub use sessions::Session;
