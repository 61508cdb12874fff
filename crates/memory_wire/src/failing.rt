//! A wire of which one call fails.

ghost use Rattle.std.specs.Prelude.{◌≡◌, true, false};

use serving::{Accept, Read, Wire, Write};

/// The calls of a wire that can fail.
#[derive(Clone, Copy, PartialEq, Eq, Drop)]
pub enum FailingCall {
    Accept,
    Read,
    Write,
}

/// A wire of which one call fails: the `left`th of its kind from now.
#[derive(Drop)]
pub struct Failing<W: Wire> {
    pub wire: W,
    call: FailingCall,
    left: u64,
    has_failed: bool,
    /// The socket whose read or write has failed.
    failed_socket: Option<u64>,
}

impl<W: Wire> Failing<W> {
    /// Makes a wire over `wire` of which the `count`th call of kind `call` fails, and no other; none fails if `count` is 0.
    pub fn new(wire: W, call: FailingCall, count: u64) -> Failing<W>
    where
        W: Drop,
        ensures wire { result.wire ≡ wire }
        ensures has_failed { result.has_failed ≡ false }
    {
        Failing {
            wire,
            call,
            left: count,
            has_failed: false,
            failed_socket: None,
        }
    }

    /// Returns whether the call has failed.
    pub fn has_failed(&self) -> bool
        ensures { result ≡ self.now.has_failed }
    {
        self.has_failed
    }

    /// Returns the socket whose read or write has failed, or `None` if no such call has failed.
    pub fn failed_socket(&self) -> Option<u64>
        ensures { result ≡ self.now.failed_socket }
    {
        self.failed_socket
    }

    /// Counts a call of kind `call`, and returns whether it is the one that fails.
    fn is_due(&mut self, call: FailingCall, socket: Option<u64>) -> bool
        ensures wire { self.new.wire ≡ self.old.wire }
        ensures due { result ≡ true → self.old.has_failed ≡ false }
        ensures now { result ≡ true → self.new.has_failed ≡ true }
        ensures not { result ≡ false → self.new.has_failed ≡ self.old.has_failed }
    {
        if self.has_failed || self.left == 0 || call != self.call {
            return false;
        }
        self.left -= 1;
        if self.left > 0 {
            return false;
        }
        self.has_failed = true;
        self.failed_socket = socket;
        true
    }
}

impl<W: Wire> Wire for Failing<W> {
    ghost use Rattle.memory_wire.specs.Passed.{traffic_failing};

    ghost past = { λ f. traffic_failing (W.past f.wire) f.has_failed };

    fn accept(&mut self) -> Accept {
        if self.is_due(FailingCall::Accept, None) {
            return Accept::Failed;
        }
        self.wire.accept()
    }

    fn read(&mut self, socket: u64, buffer: &mut [u8]) -> Read {
        if self.is_due(FailingCall::Read, Some(socket)) {
            return Read::Failed;
        }
        self.wire.read(socket, buffer)
    }

    fn write(&mut self, socket: u64, bytes: &[u8]) -> Write {
        if self.is_due(FailingCall::Write, Some(socket)) {
            return Write::Failed;
        }
        self.wire.write(socket, bytes)
    }

    fn close(&mut self, socket: u64) {
        self.wire.close(socket);
    }

    fn welcome(&mut self, socket: u64) {
        self.wire.welcome(socket);
    }

    fn farewell(&mut self, socket: u64) {
        self.wire.farewell(socket);
    }

    fn rest(&mut self) {
        self.wire.rest();
    }
}
