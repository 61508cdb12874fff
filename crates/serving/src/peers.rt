//! Peers: which connection has which socket.

/// The number of slots of a server, at least: as many as there can be connections that are not gone.
pub(crate) const SLOTS: usize = 1_024;

/// A connection, and the socket that its bytes come from and go to.
#[derive(Clone, Copy, Drop)]
pub struct Peer {
    pub connection: u64,
    pub socket: u64,
}
