//! Reads the frame at the front of a byte slice.

ghost use Rattle.std.specs.Prelude.{◌≡◌, ◌≤◌, ◌⊎◌, ℕ, List, [], ◌∷◌, length, slice_index, IsTrue};
ghost use Rattle.std.specs.Int.{w16, w32, from_be_bytes};
ghost use Rattle.model.specs.Frames;
ghost use Rattle.model.specs.Frames.{Begins};
ghost use Rattle.frame.specs.Reading.{ReturnsFrame, IsWholeFrame, IsKind};

use crate::frames::{Frame, ReadFrame};
use byteorder::{BigEndian, ByteOrder};

/// Reads the frame at the front of `input`. A whole frame has at most `max` bytes, header and end byte included; `max` is 4096 or more.
///
/// Returns `More` if fewer than 7 bytes are there or more bytes can complete a frame, and `Fault(501)` if none can. The
/// payload borrows `input`. Never allocates.
pub fn read_frame(input: &[u8], max: u32) -> ReadFrame<'_>
    requires { 4096 ≤ max }
    ensures read { ReturnsFrame max input.now result }
    // Promise: a frame that is at the front is returned.
    ensures only { (f : Frames.Frame) (rest : List ℕ) → Begins max input.now f rest → IsWholeFrame input.now result f rest }
{
    front_of(input, max)
}

fn front_of(input: &[u8], max: u32) -> ReadFrame<'_>
    requires { 4096 ≤ max }
    ensures { ReturnsFrame max input.now result }
{
    if input.len() < 7 {
        return ReadFrame::More;
    }
    let kind = input[0];
    if !is_kind(kind) {
        return ReadFrame::Fault(501);
    }
    let size = size_at(input);
    if max - 8 < size {
        return ReadFrame::Fault(501);
    }
    let end = size as usize + 7;
    if input.len() <= end {
        return ReadFrame::More;
    }
    if input[end] != 0xCE {
        return ReadFrame::Fault(501);
    }
    let channel = channel_at(input);
    let payload = &input[7..end];
    ReadFrame::Whole(
        Frame {
            kind,
            channel,
            payload,
        },
        end + 1,
    )
}

/// Returns the payload's size from the frame header at the front.
fn size_at(input: &[u8]) -> u32
    requires { 7 ≤ length input.now }
    ensures { result ≡ from_be_bytes w32 (slice_index input.now 3 ∷ slice_index input.now 4 ∷ slice_index input.now 5 ∷ slice_index input.now 6 ∷ []) }
{
    BigEndian::read_u32(&input[3..])
}

/// Returns the channel from the frame header at the front.
fn channel_at(input: &[u8]) -> u16
    requires { 7 ≤ length input.now }
    ensures { result ≡ from_be_bytes w16 (slice_index input.now 1 ∷ slice_index input.now 2 ∷ []) }
{
    BigEndian::read_u16(&input[1..])
}

// Returns whether `kind` is a frame type of AMQP.
fn is_kind(kind: u8) -> bool
    ensures only_types { IsTrue result → IsKind kind }
    ensures each_type { IsKind kind → IsTrue result }
{
    kind == 1 || kind == 2 || kind == 3 || kind == 8
}
