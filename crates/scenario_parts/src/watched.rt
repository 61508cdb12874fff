//! Sockets that count their calls. Start with [`Watched`].

use serving::{Accept, Read, Wire, Write};

/// Sockets that pass every call on, and count some of them.
#[derive(Drop)]
pub struct Watched<W> {
    pub sockets: W,
    /// The number of accepts.
    pub accepts: u64,
    /// The number of writes that took some of the bytes and not all.
    pub short_writes: u64,
    /// The number of closed sockets.
    pub closes: u64,
}

impl<W> Watched<W> {
    /// Wraps `sockets`, with all counts at 0.
    pub fn new(sockets: W) -> Watched<W> {
        Watched {
            sockets,
            accepts: 0,
            short_writes: 0,
            closes: 0,
        }
    }
}

impl<W: Wire> Wire for Watched<W> {
    ghost past = { λ w. W.past w.sockets };

    fn accept(&mut self) -> Accept {
        self.accepts = self.accepts.saturating_add(1);
        self.sockets.accept()
    }

    fn read(&mut self, socket: u64, buffer: &mut [u8]) -> Read {
        self.sockets.read(socket, buffer)
    }

    fn note_part(&mut self, socket: u64) {
        self.sockets.note_part(socket);
    }

    fn write(&mut self, socket: u64, bytes: &[u8]) -> Write {
        let written = self.sockets.write(socket, bytes);
        if let Write::Took(count) = written {
            if count < bytes.len() {
                self.short_writes = self.short_writes.saturating_add(1);
            }
        }
        written
    }

    fn close(&mut self, socket: u64) {
        self.closes = self.closes.saturating_add(1);
        self.sockets.close(socket);
    }

    fn welcome(&mut self, socket: u64) {
        self.sockets.welcome(socket);
    }

    fn farewell(&mut self, socket: u64) {
        self.sockets.farewell(socket);
    }

    fn rest(&mut self) {
        self.sockets.rest();
    }
}
