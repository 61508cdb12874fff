//! Lines about the wire: bytes, and what the readers and writers make of them.
//!
//! | kinds | subject |
//! |---|---|
//! | `table`, `pairs` | `field_table`: a table is read and written again |
//! | `method`, `bind` | `methods`: a payload is read and written again |
//! | `header`, `properties`, `size`, `content-type` | `headers`: a content header is read and written again; its properties |
//! | `frame`, `write` | `frame`: what bytes begin with; the bytes of a frame |
//! | `stream`, `commands` | `assembly`: the commands of pieces of bytes; the same commands whole, by single bytes and cut everywhere |

mod payloads;
mod properties;
mod segments;
mod streams;
mod tables;

use line_parts::{LineAnswer, Unanswered, bytes_of};

/// Answers a line that asks only about bytes.
fn answer_of_bytes(out: &mut LineAnswer, kind: &str, bytes: &[u8]) {
    match kind {
        "table" => tables::put_table(out, bytes),
        "pairs" => out.put_yes_or_no(field_table::is_table(bytes)),
        "method" => payloads::put_method(out, bytes),
        "bind" => payloads::put_bind(out, bytes),
        "header" => payloads::put_header(out, bytes),
        "properties" => properties::put_properties(out, bytes),
        "size" => payloads::put_size(out, bytes),
        "content-type" => payloads::put_content_type(out, bytes),
        "frame" => segments::put_front(out, bytes),
        "commands" => streams::put_commands(out, bytes),
        _ => out.fail(Unanswered::Form),
    }
}

/// Answers a line about the wire.
pub fn answer(out: &mut LineAnswer, kind: &str, asked: &str) {
    match kind {
        "write" => segments::put_written(out, asked),
        "stream" => streams::put_stream(out, asked),
        _ => {
            let bytes = bytes_of(out, asked);
            answer_of_bytes(out, kind, bytes.as_slice());
        }
    }
}

/// Appends `read` if the bytes written are those that were read, otherwise what was written.
fn put_again(out: &mut LineAnswer, read: &[u8], written: &[u8]) {
    if read == written {
        out.put("read");
    } else {
        out.put_hex(written);
    }
}
