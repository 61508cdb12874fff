//! Appends frames to a vector.

ghost use Rattle.std.specs.Prelude.{◌≡◌, ◌+◌, ◌<◌, ◌≤◌, ◌^◌, ◌∷◌, ◌++◌, length, vec_len, vec_capacity, OnOk, OnErr};
ghost use Rattle.std.specs.Int.{w16, w32, to_be_bytes};
ghost use Rattle.model.specs.Frames.{frame_bytes};
ghost use Rattle.frame.specs.Reading.{seen};

use crate::frames::Frame;
use std::alloc::AllocError;

/// Appends the encoding of `frame` to `out`. The payload has at most 2^32 - 9 bytes.
///
/// Fails only if `out` has to grow and the allocation fails; the content of `out` has not changed then.
pub fn write_frame(out: &mut Vec<u8>, frame: &Frame<'_>) -> Result<(), AllocError>
    requires { length frame.now.payload.now + 9 ≤ 2 ^ 32 }
    ensures ok { OnOk result (out.new.items ≡ out.old.items ++ frame_bytes (seen frame.now)) }
    ensures err { OnErr result (out.new.items ≡ out.old.items) }
    // On failure the spare capacity was too small.
    ensures full { OnErr result (vec_capacity out.old < vec_len out.old + (length frame.now.payload.now + 8)) }
{
    out.reserve(frame.payload.len() + 8)?;
    put_frame(out, frame);
    Ok(())
}

/// Appends the encoding of `frame` to `out`, which has enough spare capacity. Never allocates.
pub fn put_frame(out: &mut Vec<u8>, frame: &Frame<'_>)
    requires size { length frame.now.payload.now + 9 ≤ 2 ^ 32 }
    requires room { vec_len out.old + (length frame.now.payload.now + 8) ≤ vec_capacity out.old }
    ensures items { out.new.items ≡ out.old.items ++ frame_bytes (seen frame.now) }
    ensures len { vec_len out.new ≡ vec_len out.old + (length frame.now.payload.now + 8) }
    ensures capacity { vec_capacity out.old ≤ vec_capacity out.new }
{
    put_bytes(out, &head_of(frame));
    put_bytes(out, frame.payload);
    out.push_reserved(0xCE);
}

/// Returns the frame header: type, channel and payload size.
fn head_of(frame: &Frame<'_>) -> [u8; 7]
    requires { length frame.now.payload.now < 2 ^ 32 }
    ensures { result ≡ frame.now.kind ∷ to_be_bytes w16 frame.now.channel ++ to_be_bytes w32 (length frame.now.payload.now) }
{
    let [channel_high, channel_low] = frame.channel.to_be_bytes();
    let [a, b, c, d] = (frame.payload.len() as u32).to_be_bytes();
    [frame.kind, channel_high, channel_low, a, b, c, d]
}

/// Appends `bytes` to `out`, which has enough spare capacity. It cannot fail.
pub(crate) fn put_bytes(out: &mut Vec<u8>, bytes: &[u8])
    requires { vec_len out.old + length bytes.now ≤ vec_capacity out.old }
    ensures items { out.new.items ≡ out.old.items ++ bytes.now }
    ensures len { vec_len out.new ≡ vec_len out.old + length bytes.now }
    ensures capacity { vec_capacity out.old ≤ vec_capacity out.new }
{
    match out.extend_from_slice(bytes) {
        Ok(()) => {}
        Err(_) => unreachable!(),
    }
}
