//! The events that reach the broker, and what it sends. Start with [`Event`] and [`Send`].

use crate::contents::Content;
use crate::methods::{Method, Publish};
use crate::texts::Text;

/// A complete command of one connection.
#[derive(Drop)]
pub enum Command {
    /// The first eight bytes of a connection, before all frames.
    Head {
        bytes: [u8; 8],
    },
    /// A method that carries no content.
    Plain {
        channel: u16,
        method: Method,
    },
    /// A publish, with its whole content.
    Full {
        channel: u16,
        publish: Publish,
        content: Content,
    },
    /// A publish whose content is too large, once all of its body was read and dropped.
    TooLarge {
        channel: u16,
    },
}

/// What is sent to one connection.
pub enum Send {
    /// The eight bytes of the protocol header: the reply if the client's first eight bytes are not these.
    Greeting {
        connection: u64,
    },
    /// A method, with its content if it carries one.
    Command {
        connection: u64,
        channel: u16,
        method: Method,
        content: Option<Content>,
    },
}

/// Not derived: a derived drop is expanded, and proved again, in each function that drops the value.
impl Drop for Send {
    fn drop(self) {
        match self {
            Send::Greeting { connection: _ } => {}
            Send::Command {
                connection: _,
                channel: _,
                method: _,
                content: _,
            } => {}
        }
    }
}

/// One step of the broker.
pub enum Event {
    /// The connection was opened, and its first eight bytes are awaited.
    Open {
        connection: u64,
    },
    /// The first eight bytes of the connection.
    First {
        connection: u64,
        bytes: [u8; 8],
    },
    /// The connection is opened as running, with channels 1 to `channels` open.
    Running {
        connection: u64,
        channel_max: u16,
        channels: u16,
    },
    /// A complete command.
    Command {
        connection: u64,
        channel: u16,
        method: Method,
        content: Option<Content>,
    },
    /// A publish whose content is too large.
    TooLarge {
        connection: u64,
        channel: u16,
    },
    /// The connection's bytes broke the protocol; `code` is the reply code.
    Fault {
        connection: u64,
        code: u16,
    },
    /// The connection is lost.
    Lose {
        connection: u64,
    },
    /// The connection's output has reached 1,048,576 bytes.
    Pause {
        connection: u64,
    },
    /// The connection's output has fallen below 1,048,576 bytes.
    Resume {
        connection: u64,
    },
    /// A message goes to a consumer of the connection.
    Deliver {
        connection: u64,
    },
}

/// Not derived: a derived drop is expanded, and proved again, in each function that drops the value.
impl Drop for Event {
    fn drop(self) {
        match self {
            Event::Open { connection: _ } => {}
            Event::First {
                connection: _,
                bytes: _,
            } => {}
            Event::Running {
                connection: _,
                channel_max: _,
                channels: _,
            } => {}
            Event::Command {
                connection: _,
                channel: _,
                method: _,
                content: _,
            } => {}
            Event::TooLarge {
                connection: _,
                channel: _,
            } => {}
            Event::Fault {
                connection: _,
                code: _,
            } => {}
            Event::Lose { connection: _ } => {}
            Event::Pause { connection: _ } => {}
            Event::Resume { connection: _ } => {}
            Event::Deliver { connection: _ } => {}
        }
    }
}

/// One input of a run. Connections are numbered from 1 in the order in which they are opened. `S` is the setup that a reload
/// offers.
#[derive(Drop)]
pub enum Arrival<S> {
    /// A connection is opened, and its first eight bytes are awaited.
    Open,
    /// A connection is opened as running, with channels 1 to this number open.
    Ready(u8),
    /// Bytes arrive from this connection.
    In(u64, Text),
    /// Of this connection's output this many bytes are taken, or all if there are fewer.
    Sent(u64, u64),
    /// One delivery is made, if any can be.
    Pump,
    /// This connection is lost.
    Lose(u64),
    /// A reload offers this setup, which is put in force if there is no obstacle.
    Reload(S),
}

/// The phase of a connection's life. Source: AMQP 0-9-1, section 2.2.4, "The Connection Class".
#[derive(Clone, Copy, PartialEq, Eq, Debug, Drop)]
pub enum Phase {
    /// Awaits the first eight bytes.
    Header,
    /// Awaits start-ok.
    Start,
    /// Awaits tune-ok.
    Tune,
    /// Awaits connection.open.
    Open,
    /// Performs commands.
    Running,
    /// Awaits close-ok.
    Closing,
    /// Reads nothing more.
    Over,
}
