//! Makes one delivery to one connection.

ghost use Rattle.std.specs.Prelude.{◌≡◌, None, IfOk, OnOk, OnErr};
ghost use Rattle.model.specs.Naming.{AreNamed};
ghost use Rattle.model.specs.Sending.{AreCarried};
ghost use Rattle.broker.specs.Turns.{topology_kept, broker_of};
ghost use Rattle.broker.specs.Waiting.{NoneIsLater, ServesSoon};
ghost use Rattle.commands.specs.Picked.{IsPick};
ghost use Rattle.engine.specs.Pumping.{PumpsConnection};
ghost use Rattle.outputs.specs.Waiting.{HoldsNone};

use crate::connection::Connection;
use crate::reserve::pump;
use crate::turning::{make_room, put_out};
use broker::{Broker, Pick};
use notes::Notes;
use outputs::{Room, Scratch, Spares};
use std::alloc::{AllocError, Global};

/// Delivers to the picked consumer of `connection`, after reserving capacity for the largest delivery. If an allocation fails nothing is
/// delivered, and an empty output holds no storage.
pub(crate) fn pump_connection(
    alloc: Global,
    broker: &mut Broker,
    scratch: &mut Scratch,
    spares: &mut Spares,
    connection: &mut Connection,
    pick: Pick,
) -> Result<Notes, AllocError>
    // What the caller knows: the broker picked this consumer.
    requires picked { IsPick (broker_of broker.old) pick }
    requires carried { AreCarried (broker_of broker.old) }
    requires named { AreNamed (topology_kept broker.old) (broker_of broker.old) }
    // The promise: this delivery is made, and its frames are appended to the connection's output.
    ensures ok { IfOk result (λ notes. PumpsConnection broker.old pick connection.old notes.items broker.new connection.new) }
    ensures rest { connection.new ≡ record connection.old { output = connection.new.output } }
    // A failure delivers nothing.
    ensures broker_kept { OnErr result (broker.new ≡ broker.old) }
    ensures output_kept { OnErr result (connection.new.output.bytes ≡ connection.old.output.bytes) }
    ensures refused { OnErr result (HoldsNone connection.new.output) }
    // The frame, and the order of consumers that wait.
    ensures topology { topology_kept broker.new ≡ topology_kept broker.old }
    ensures over { OnOk result (broker.new.turn ≡ None) }
    ensures later { OnOk result (NoneIsLater broker.old broker.new) }
    ensures soon { OnOk result (ServesSoon broker.old pick) }
{
    make_room(spares, &mut connection.output, Room::Content)?;
    let max = connection.session.frame_max();
    match pump(alloc, spares, broker, pick) {
        Ok(step) => {
            put_out(
                pick.connection,
                broker,
                scratch,
                &mut connection.output,
                max,
                &step.sends,
            );
            Ok(step.notes)
        }
        Err(error) => {
            spares.take_back(&mut connection.output);
            Err(error)
        }
    }
}
