//! The state of one connection.

ghost use Rattle.std.specs.Prelude.{◌≡◌, IsTrue};
ghost use Rattle.model.specs.Phases.{is_running, no_session, running_session};
ghost use Rattle.model.specs.Opening.{new_session};
ghost use Rattle.model.specs.Commands.{opened_stream, running_stream};
ghost use Rattle.engine.specs.World.{is_connection_gone, IsNew};

use crate::reserve::FIRST_ALLOWANCE;
use assembly::Stream;
use model::{Event, Phase};
use outputs::Output;
use session::Session;
use std::alloc::Global;

/// The length in bytes at which an output pauses its connection.
pub(crate) const BOUND: usize = 1_048_576;

/// A connection that is not gone.
pub(crate) struct Connection {
    /// Its number: from 1, in the order of the openings.
    pub(crate) number: u64,
    pub(crate) session: Session,
    pub(crate) stream: Stream,
    /// The pending event: read and not performed yet. Between turns it is a command for which an allocation failed.
    pub(crate) kept: Option<Event>,
    pub(crate) output: Output,
    /// The most bytes that may be unread for a read of this connection's input to use the memory of the reserve. Depends on the last command that was
    /// performed.
    pub(crate) allowance: usize,
}

/// Not derived: a derived drop is expanded, and proved again, in each function that drops the value.
impl Drop for Connection {
    fn drop(self) {
        let Connection {
            number: _,
            session: _,
            stream: _,
            kept,
            output: _,
            allowance: _,
        } = self;
        drop(kept);
    }
}

impl Connection {
    /// Returns connection `number` before its first byte.
    pub(crate) fn new(alloc: Global, number: u64) -> Connection
        ensures { IsNew result number new_session opened_stream }
    {
        let mut stream = Stream::new(alloc);
        stream.set_running(false);
        Connection {
            number,
            session: Session::new(),
            stream,
            kept: None,
            output: Output::new(alloc),
            allowance: FIRST_ALLOWANCE,
        }
    }

    /// Returns connection `number`, which is running at once.
    pub(crate) fn running(alloc: Global, number: u64) -> Connection
        ensures { IsNew result number running_session running_stream }
    {
        Connection {
            number,
            session: Session::running(),
            stream: Stream::running(alloc),
            kept: None,
            output: Output::new(alloc),
            allowance: FIRST_ALLOWANCE,
        }
    }

    /// Returns whether the broker performs its commands.
    pub(crate) fn runs(&self) -> bool
        ensures { result ≡ is_running self.now.session.phase }
    {
        matches!(self.session.phase(), Phase::Running)
    }

    /// Returns whether it is over and its output is empty. A connection that is over keeps no agreed limits.
    pub(crate) fn is_gone(&self) -> bool
        ensures value { result ≡ is_connection_gone self.now }
        ensures over { IsTrue result → self.now.session ≡ no_session }
    {
        self.session.is_over() && self.output.bytes().is_empty()
    }
}
