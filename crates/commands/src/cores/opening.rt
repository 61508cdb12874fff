//! Opens channels. Source: AMQP 0-9-1, channel.open.

use crate::cores::Core;
use channels::Channel;
use replies::{Step, open_ok};
use std::alloc::{AllocError, Global};

impl Core {
    ghost use Rattle.std.specs.Prelude.{◌≡◌, [], None, IsSome, IfOk, OnErr};
    ghost use Rattle.model.specs.declared.methods.Method.TheVariants.{ChannelOpen};
    ghost use Rattle.commands.specs.State.{broker_of, topology_kept};
    ghost use Rattle.commands.specs.Steps.{PerformsOn};
    ghost use Rattle.replies.specs.Sent.{AreAddressed};

    /// Makes the channel a new, open one, and replies with `channel.open-ok`. Fails only if an allocation fails; nothing has changed then.
    pub(crate) fn open_channel(
        &mut self,
        alloc: Global,
        connection: u64,
        channel: u16,
    ) -> Result<Step, AllocError>
        requires { IsSome ((broker_of self.old).connection connection) }
        ensures ok { IfOk result (λ s. PerformsOn self.old connection channel (ChannelOpen []) None s.sends.items s.notes.items self.new) }
        ensures addressed { IfOk result (λ s. AreAddressed connection s.sends.items) }
        ensures topology { topology_kept self.new ≡ topology_kept self.old }
        ensures err { OnErr result (self.new ≡ self.old) }
    {
        let step = Step::sending(alloc, open_ok(connection, channel))?;
        self.connections
            .open_channel(connection, channel, Channel::new(alloc))?;
        Ok(step)
    }
}
