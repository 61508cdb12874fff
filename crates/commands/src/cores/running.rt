//! Running connections, and their pauses.

use crate::cores::Core;
use crate::freeing::requeue_all;
use channels::RunningConnection;
use std::alloc::{AllocError, Global};

impl Core {
    ghost use Rattle.std.specs.Prelude.{◌≡◌, true, false, IfOk, OnOk, OnErr};
    ghost use Rattle.model.specs.Agreement.{IsAgreed};
    ghost use Rattle.model.specs.Step.{Is, with_gone, with_paused};
    ghost use Rattle.model.specs.declared.events.Event.TheVariants as event_is;
    ghost use Rattle.commands.specs.State.{broker_of, topology_kept};
    ghost use Rattle.commands.specs.Steps.{ActsAlone};
    ghost use Rattle.commands.specs.Ended.{LosesConnection};

    /// Makes `connection` a running one, with channels 1 to `channels` open and new. The unacknowledged messages of an earlier connection of this
    /// number are ready again, and it is returned as it was. Fails only if an allocation fails; nothing has changed then.
    pub fn open(
        &mut self,
        alloc: Global,
        connection: u64,
        channel_max: u16,
        channels: u16,
    ) -> Result<Option<RunningConnection>, AllocError>
        requires { IsAgreed (broker_of self.old) }
        ensures ok { OnOk result (ActsAlone self.old (event_is.Running connection channel_max channels) self.new) }
        ensures ended { IfOk result (λ before. LosesConnection connection before self.old self.new) }
        ensures topology { topology_kept self.new ≡ topology_kept self.old }
        ensures err { OnErr result (self.new ≡ self.old) }
    {
        let before = self
            .connections
            .open(alloc, connection, channel_max, channels)?;
        requeue_all(&mut self.depot, connection, before.as_ref());
        Ok(before)
    }

    /// Removes the connection: its unacknowledged messages are ready again. Returns it as it was, if it was running.
    pub(crate) fn go(&mut self, connection: u64) -> Option<RunningConnection>
        requires { IsAgreed (broker_of self.old) }
        ensures gone { Is (with_gone (broker_of self.old) connection) (broker_of self.new) }
        ensures ended { LosesConnection connection result self.old self.new }
        ensures topology { topology_kept self.new ≡ topology_kept self.old }
    {
        let before = self.connections.remove(connection);
        requeue_all(&mut self.depot, connection, before.as_ref());
        before
    }

    /// Sets whether the connection is paused.
    pub(crate) fn set_paused(&mut self, connection: u64, is_paused: bool)
        ensures paused { Is (with_paused (broker_of self.old) connection is_paused) (broker_of self.new) }
        ensures topology { topology_kept self.new ≡ topology_kept self.old }
    {
        self.connections.set_paused(connection, is_paused);
    }

    /// Removes a connection that is lost, with its channels: its unacknowledged messages are ready again. Returns it as it was, if it was running. Never
    /// allocates.
    pub fn lose(&mut self, connection: u64) -> Option<RunningConnection>
        requires { IsAgreed (broker_of self.old) }
        ensures acts { ActsAlone self.old (event_is.Lose connection) self.new }
        ensures ended { LosesConnection connection result self.old self.new }
        ensures topology { topology_kept self.new ≡ topology_kept self.old }
    {
        self.go(connection)
    }

    /// Records that the output of `connection` holds 1,048,576 bytes or more. Never allocates.
    pub fn pause(&mut self, connection: u64)
        ensures acts { ActsAlone self.old (event_is.Pause connection) self.new }
        ensures topology { topology_kept self.new ≡ topology_kept self.old }
    {
        self.set_paused(connection, true);
    }

    /// Records that the output of `connection` holds fewer than 1,048,576 bytes again. Never allocates.
    pub fn resume(&mut self, connection: u64)
        ensures acts { ActsAlone self.old (event_is.Resume connection) self.new }
        ensures topology { topology_kept self.new ≡ topology_kept self.old }
    {
        self.set_paused(connection, false);
    }
}
