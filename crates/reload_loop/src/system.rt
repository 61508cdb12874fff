//! The sockets of the machine.

ghost use Rattle.std.specs.Prelude.{⊤};

use server::{Listener, Listening};
use sockets::Sockets;
use std::alloc::Global;
use std::net::SocketAddr;

/// Opens sockets of the machine.
#[derive(Clone, Copy, Drop)]
pub struct System<'a> {
    pub rt: &'a HostRuntime,
}

impl Listener for System<'_> {
    type Sockets = Sockets;

    ghost listens = { λ _ _ _. ⊤ };

    fn listen(&mut self, alloc: Global, address: &str) -> Option<Listening<Sockets>> {
        let address = address.parse::<SocketAddr>().ok()?;
        let sockets = Sockets::for_clients(self.rt, alloc, address).ok()?;
        let address = sockets.local_addr().ok()?;
        let address = format!(in alloc; "{address}").ok()?;
        Some(Listening { sockets, address })
    }
}
