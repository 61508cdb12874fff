//! A frame, and the result of reading one.

/// A frame whose payload borrows the bytes it was read from.
#[derive(Clone, Copy, PartialEq, Eq, Debug, Drop)]
pub struct Frame<'a> {
    /// The type: 1 is a method, 2 a content header, 3 a body, 8 a heartbeat.
    pub kind: u8,
    pub channel: u16,
    pub payload: &'a [u8],
}

/// What [`crate::read_frame`] found at the front of its input.
#[derive(Clone, Copy, PartialEq, Eq, Debug, Drop)]
pub enum ReadFrame<'a> {
    /// A whole frame, and its length in bytes including header and end byte.
    Whole(Frame<'a>, usize),
    /// No whole frame yet: fewer than 7 bytes are there, or more bytes can complete one.
    More,
    /// No frame, whatever bytes follow. The reply code is 501, frame-error.
    Fault(u16),
}
