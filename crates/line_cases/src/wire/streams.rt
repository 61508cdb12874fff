//! Lines about streams of frames.

use super::segments::put_frame;
use assembly::{Fault, Stream};
use headers::write_header;
use line_parts::{LineAnswer, Unanswered, bytes_of};
use methods::write_method;
use model::{Command, Content, Method};

/// The largest number of commands that are taken at a time.
const MOST: u8 = 100;

/// What a stream returned as its next command.
#[derive(Clone, Copy, Drop)]
enum Took {
    Command,
    Nothing,
    Fault,
}

/// Appends the frame of a method.
fn put_method(out: &mut LineAnswer, channel: u16, method: &Method) {
    let mut payload = Vec::new(out.alloc());
    if write_method(&mut payload, method).is_err() {
        return out.fail(Unanswered::Form);
    }
    put_frame(out, 1, channel, payload.as_slice());
}

/// Appends the frame of a content's header.
fn put_header(out: &mut LineAnswer, channel: u16, content: &Content) {
    let mut payload = Vec::new(out.alloc());
    let size = content.body.len() as u64;
    if write_header(&mut payload, size, &content.properties).is_err() {
        return out.fail(Unanswered::Form);
    }
    put_frame(out, 2, channel, payload.as_slice());
}

/// Appends a body in one frame, unless it is empty.
fn put_body(out: &mut LineAnswer, channel: u16, content: &Content) {
    let payload = content.body.as_bytes();
    if !payload.is_empty() {
        put_frame(out, 3, channel, payload);
    }
}

/// Appends the frames of a publish and its content.
fn put_publish(out: &mut LineAnswer, channel: u16, publish: &Method, content: &Content) {
    put_method(out, channel, publish);
    put_header(out, channel, content);
    put_body(out, channel, content);
}

/// Appends a command as its frames are written.
fn put_command(out: &mut LineAnswer, command: Command) {
    match command {
        Command::Head { bytes } => {
            out.put("first ");
            out.put_hex(bytes.as_slice());
        }
        Command::Plain { channel, method } => put_method(out, channel, &method),
        Command::Full {
            channel,
            publish,
            content,
        } => put_publish(out, channel, &Method::BasicPublish(publish), &content),
        Command::TooLarge { channel } => {
            out.put("too large on ");
            out.put_number(u64::from(channel));
        }
    }
}

/// Appends a fault by its reply code.
fn put_fault(out: &mut LineAnswer, fault: Fault) {
    match fault {
        Fault::Broken(code) => out.put_number(u64::from(code)),
        Fault::Memory => out.fail(Unanswered::Memory),
    }
}

/// Takes the next command from the stream, and appends it or the fault.
fn take_one(out: &mut LineAnswer, stream: &mut Stream) -> Took {
    match stream.next() {
        Ok(None) => Took::Nothing,
        Ok(Some(command)) => {
            put_command(out, command);
            Took::Command
        }
        Err(fault) => {
            put_fault(out, fault);
            Took::Fault
        }
    }
}

/// Appends the commands that are complete, and a fault after them, if there is one. Returns whether there is no fault.
fn take_all(out: &mut LineAnswer, stream: &mut Stream) -> bool {
    for _ in 0..MOST {
        match take_one(out, stream) {
            Took::Command => {}
            Took::Nothing => return true,
            Took::Fault => return false,
        }
    }
    out.fail(Unanswered::Form);
    false
}

/// Feeds the pieces of a group to a stream.
fn feed_group(out: &mut LineAnswer, stream: &mut Stream, group: &str) {
    for piece in group.split(" + ") {
        let bytes = bytes_of(out, piece);
        out.value_of(stream.feed(bytes.as_slice()), Unanswered::Memory);
    }
}

/// Appends what the stream returns after a group: its commands, a fault, or `nothing`, and the number of bytes left.
fn put_said(out: &mut LineAnswer, stream: &mut Stream) {
    let before = out.len();
    let is_sound = take_all(out, stream);
    if out.len() == before {
        out.put("nothing");
    }
    let left = stream.unread();
    if is_sound && left > 0 {
        out.put(", ");
        out.put_number(left as u64);
        out.put(" left");
    }
}

/// Feeds one more group, and appends what the stream returns after it.
fn put_group(out: &mut LineAnswer, stream: &mut Stream, group: &str) {
    feed_group(out, stream, group);
    if out.len() != 0 {
        out.put(" / ");
    }
    put_said(out, stream);
}

/// Appends what the stream returns after each group of pieces.
pub fn put_stream(out: &mut LineAnswer, asked: &str) {
    let mut stream = Stream::running(out.alloc());
    for group in asked.split(" / ") {
        put_group(out, &mut stream, group);
    }
}

/// Feeds a piece, and appends the commands that are complete then.
fn hear(out: &mut LineAnswer, stream: &mut Stream, piece: &[u8]) {
    out.value_of(stream.feed(piece), Unanswered::Memory);
    take_all(out, stream);
}

/// Returns the commands of a stream that is fed the pieces `first` and `second`.
fn heard(out: &mut LineAnswer, first: &[u8], second: &[u8]) -> String {
    let mut stream = Stream::running(out.alloc());
    let mut said = LineAnswer::new(out.alloc());
    hear(&mut said, &mut stream, first);
    hear(&mut said, &mut stream, second);
    said.into_part_of(out)
}

/// Returns the commands of a stream that is fed `bytes` one by one.
fn heard_by_bytes(out: &mut LineAnswer, bytes: &[u8]) -> String {
    let mut stream = Stream::running(out.alloc());
    let mut said = LineAnswer::new(out.alloc());
    for byte in bytes {
        hear(&mut said, &mut stream, &[*byte]);
    }
    said.into_part_of(out)
}

/// Returns the first index at which a cut in two changes the commands, or `None`.
fn odd_cut(out: &mut LineAnswer, bytes: &[u8], whole: &str) -> Option<usize> {
    for cut in 0..bytes.len() {
        let (first, second) = bytes.split_at(cut);
        if heard(out, first, second).as_str() != whole {
            return Some(cut);
        }
    }
    None
}

/// Appends `read` if the commands are written with the same bytes, otherwise the commands.
fn put_spelled_again(out: &mut LineAnswer, bytes: &[u8], whole: &str) {
    let mut given = LineAnswer::new(out.alloc());
    given.put_hex(bytes);
    let given = given.into_part_of(out);
    out.put(if given.as_str() == whole {
        "read"
    } else {
        whole
    });
}

/// Appends the commands of the bytes, or the index at which a cut changes them.
fn put_uncut(out: &mut LineAnswer, bytes: &[u8], whole: &str) {
    match odd_cut(out, bytes, whole) {
        Some(cut) => {
            out.put("others when cut behind byte ");
            out.put_number(cut as u64);
        }
        None => put_spelled_again(out, bytes, whole),
    }
}

/// Appends the commands of the bytes, or `read` if writing them gives the same bytes. They have to be the same whether the bytes come whole, one by
/// one, or cut in two at any index; otherwise it appends which pieces give others.
pub fn put_commands(out: &mut LineAnswer, bytes: &[u8]) {
    let whole = heard(out, bytes, &[]);
    let single = heard_by_bytes(out, bytes);
    if single.as_str() == whole.as_str() {
        put_uncut(out, bytes, whole.as_str());
    } else {
        out.put("others in single bytes");
    }
}
