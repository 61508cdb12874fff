//! A file of the machine that has more bytes than the system returns at once.

use reload_loop::Disk;
use scenario_parts::{Unmet, expect_bytes, value_of};
use server::Files as _;
use std::alloc::{AllocError, Global};
use std::fs;

/// The name of the file that is written.
const WRITTEN: &str = "a_long_file_that_was_written";

/// The length of the file in bytes.
const LENGTH: usize = 100_000;

/// Returns the bytes of the file. They repeat after 251, a prime, so no two parts that begin at powers of two are equal.
fn long_text(alloc: Global) -> Result<Vec<u8>, AllocError> {
    let mut bytes = vec![in alloc; 0u8; LENGTH]?;
    for (place, byte) in bytes.iter_mut().enumerate() {
        *byte = (place % 251) as u8;
    }
    Ok(bytes)
}

/// Checks that a file of 100,000 bytes is written whole, and that each of its bytes is read.
pub(crate) fn a_long_file_is_read_to_its_end(rt: &HostRuntime) -> Result<(), Unmet> {
    let alloc = rt.alloc();
    let mut disk = Disk { rt };
    let bytes = value_of("long_text", long_text(alloc))?;
    value_of("write", disk.write(WRITTEN, bytes.as_slice()))?;
    let read = disk.read(alloc, WRITTEN);
    value_of("remove_file", fs::remove_file(rt, WRITTEN))?;
    let read = value_of("read", read)?;
    expect_bytes("the file", read.as_slice(), bytes.as_slice())
}
