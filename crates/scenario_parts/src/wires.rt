//! Clients of a wire in memory.

use memory_wire::Client;

/// Returns a client that writes `input` in pieces of at most `piece` bytes, and takes at most `window` bytes of a write.
pub fn memory_client(input: Vec<u8>, piece: usize, window: usize) -> Client {
    Client {
        input,
        read: 0,
        piece,
        window,
    }
}
