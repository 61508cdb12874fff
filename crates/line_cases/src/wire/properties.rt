//! Lists the properties of a content.

use super::payloads::put_header_refusal;
use headers::{Header, fields_of, read_header};
use line_parts::{LineAnswer, Unanswered};
use model::{Fields, Table, Text};

/// Appends ` NAME=`.
fn put_label(out: &mut LineAnswer, name: &str) {
    out.put(" ");
    out.put(name);
    out.put("=");
}

fn put_text(out: &mut LineAnswer, name: &str, text: &Option<Text>) {
    if let Some(text) = text {
        put_label(out, name);
        out.put_bytes(text.as_bytes());
    }
}

/// Appends a table, its pairs in hex.
fn put_table(out: &mut LineAnswer, name: &str, table: &Option<Table>) {
    if let Some(table) = table {
        put_label(out, name);
        out.put_hex(table.as_bytes());
    }
}

fn put_number(out: &mut LineAnswer, name: &str, number: Option<u64>) {
    if let Some(number) = number {
        put_label(out, name);
        out.put_number(number);
    }
}

fn put_first(out: &mut LineAnswer, p: &Fields) {
    put_text(out, "content-type", &p.content_type);
    put_text(out, "content-encoding", &p.content_encoding);
    put_table(out, "headers", &p.headers);
    put_number(out, "delivery-mode", p.delivery_mode.map(u64::from));
    put_number(out, "priority", p.priority.map(u64::from));
    put_text(out, "correlation-id", &p.correlation_id);
    put_text(out, "reply-to", &p.reply_to);
}

fn put_others(out: &mut LineAnswer, p: &Fields) {
    put_text(out, "expiration", &p.expiration);
    put_text(out, "message-id", &p.message_id);
    put_number(out, "timestamp", p.timestamp);
    put_text(out, "type", &p.kind);
    put_text(out, "user-id", &p.user_id);
    put_text(out, "app-id", &p.app_id);
    put_text(out, "reserved", &p.reserved);
}

/// Appends the size of the body, and ` NAME=VALUE` for each property, in the order of their flags.
fn put_listed(out: &mut LineAnswer, header: &Header) {
    out.put_number(header.size);
    match fields_of(out.alloc(), &header.properties) {
        Ok(fields) => {
            put_first(out, &fields);
            put_others(out, &fields);
        }
        Err(_) => out.fail(Unanswered::Memory),
    }
}

/// Appends the size of the body and the properties, or the reply code.
pub fn put_properties(out: &mut LineAnswer, payload: &[u8]) {
    match read_header(out.alloc(), payload) {
        Ok(header) => put_listed(out, &header),
        Err(refusal) => put_header_refusal(out, refusal),
    }
}
