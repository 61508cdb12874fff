//! A client served in memory.

ghost use Rattle.std.specs.Prelude.{◌≡◌, IfOk, IfSome};
ghost use Rattle.model.specs.Arrivals.{new_world};
ghost use Rattle.model.specs.State.{Config};
ghost use Rattle.callers.specs.Served.{IsServed};

use memory_wire::{Client, MemoryWire, serve_in_memory};
use runs::Machine;
use serving::Server;
use std::alloc::{AllocError, Global};

/// Serves one client for `rounds` rounds, who sends `input` and takes what it is sent. Returns all bytes that it took, or
/// `None` if the wire's log is not whole, since an allocation failed. Fails only if an allocation fails.
pub fn serve_client<M: Machine + Drop>(
    alloc: Global,
    machine: M,
    input: Vec<u8>,
    rounds: u64,
) -> Result<Option<Vec<u8>>, AllocError>
    ensures { (f : Config) → M.world machine ≡ new_world f → IfOk result (λ taken. IfSome taken (λ bytes. IsServed M.lacks f bytes.items)) }
{
    let client = Client {
        piece: input.len(),
        input,
        read: 0,
        window: usize::MAX,
    };
    let mut wire = MemoryWire::new(alloc, vec![in alloc; client]?);
    let mut server = Server::new(alloc, machine)?;
    if !serve_in_memory(alloc, &mut server, &mut wire, rounds) {
        return Ok(None);
    }
    Ok(Some(wire.log.taken_by(alloc, 0)?))
}
