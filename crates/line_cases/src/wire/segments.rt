//! Lines about frames.

use frame::{Frame, Read, read_frame, write_frame};
use line_parts::{LineAnswer, Unanswered, bytes_of, cut};

/// The length of the longest payload in a line, in bytes.
const LONGEST: usize = 131_072;

/// Appends the parts of a frame of `size` bytes.
fn put_whole(out: &mut LineAnswer, frame: &Frame<'_>, size: usize) {
    out.put_number(size as u64);
    out.put(" bytes, type ");
    out.put_number(u64::from(frame.kind));
    out.put(", channel ");
    out.put_number(u64::from(frame.channel));
    if !frame.payload.is_empty() {
        out.put(", payload ");
        out.put_hex(frame.payload);
    }
}

/// Appends what the bytes begin with: a frame, `more`, or the reply code.
pub fn put_front(out: &mut LineAnswer, bytes: &[u8]) {
    match read_frame(bytes, 4096) {
        Read::Whole(frame, size) => put_whole(out, &frame, size),
        Read::More => out.put("more"),
        Read::Fault(code) => out.put_number(u64::from(code)),
    }
}

/// Appends a frame in hex. Records [`Unanswered::Form`] if its payload is too long for a line.
pub fn put_frame(out: &mut LineAnswer, kind: u8, channel: u16, payload: &[u8]) {
    if payload.len() > LONGEST {
        return out.fail(Unanswered::Form);
    }
    let frame = Frame {
        kind,
        channel,
        payload,
    };
    let mut bytes = Vec::new(out.alloc());
    match write_frame(&mut bytes, &frame) {
        Ok(()) => out.put_hex(bytes.as_slice()),
        Err(_) => out.fail(Unanswered::Memory),
    }
}

/// Appends the frame of a type, a channel and a payload, which `asked` names.
pub fn put_written(out: &mut LineAnswer, asked: &str) {
    let (kind, rest) = cut(out, asked);
    let (channel, payload) = cut(out, rest);
    let payload = bytes_of(out, payload);
    match (kind.parse::<u8>(), channel.parse::<u16>()) {
        (Ok(kind), Ok(channel)) => put_frame(out, kind, channel, payload.as_slice()),
        _ => out.fail(Unanswered::Form),
    }
}
