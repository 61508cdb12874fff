//! Where sockets of the system listen.

use crate::scenes::Scene;
use scenario_outcomes::{Unmet, expect, value_of};
use sockets::Sockets;
use std::net::SocketAddr;

/// Asks sockets to listen at `asked`, and returns the address at which they do.
fn address_of(rt: &HostRuntime, asked: SocketAddr) -> Result<SocketAddr, Unmet> {
    let sockets = value_of("Sockets::bind", Sockets::bind(rt, rt.alloc(), asked))?;
    value_of("Sockets::local_addr", sockets.local_addr())
}

/// Checks that sockets listen at the address that is asked for, and at a port that the system chose only if port 0 is asked for.
pub(crate) fn listen(scene: &Scene) -> Result<(), Unmet> {
    let asked = value_of("parse", "127.0.0.2:0".parse::<SocketAddr>())?;
    let chosen = address_of(&scene.rt, asked)?;
    expect("the IP is the one asked for", chosen.ip() == asked.ip())?;
    expect("the system chose a port", chosen.port() != 0)?;
    let again = address_of(&scene.rt, chosen)?;
    expect("the port is the one asked for", again == chosen)
}
