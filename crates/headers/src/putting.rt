//! Appends the parts of a header to a vector that has enough spare capacity.

ghost use Rattle.std.specs.Prelude.{◌≡◌, ◌+◌, ◌≤◌, ◌++◌, length, vec_len, vec_capacity};
ghost use Rattle.model.specs.Headers.{text_of, table_of, octet_of, time_of, value_of, IsValue};
ghost use Rattle.headers.specs.Writing.{front_of, back_of, values, AreValues, sized, fixed};

use field_table::put_bytes;
use model::{Fields, Table, Text};

/// Appends class, weight, `size` and `flags`: 14 bytes.
pub(crate) fn put_fixed(out: &mut Vec<u8>, size: u64, flags: u16)
    requires { vec_len out.old + 14 ≤ vec_capacity out.old }
    ensures items { out.new.items ≡ out.old.items ++ fixed size flags }
    ensures len { vec_len out.new ≡ vec_len out.old + 14 }
    ensures capacity { vec_capacity out.old ≤ vec_capacity out.new }
{
    put_sized(out, size);
    put_bytes(out, &flags.to_be_bytes());
}

/// Appends class, weight and `size`: 12 bytes.
pub(crate) fn put_sized(out: &mut Vec<u8>, size: u64)
    requires { vec_len out.old + 12 ≤ vec_capacity out.old }
    ensures items { out.new.items ≡ out.old.items ++ sized size }
    ensures len { vec_len out.new ≡ vec_len out.old + 12 }
    ensures capacity { vec_capacity out.old ≤ vec_capacity out.new }
{
    let [a, b, c, d, e, f, g, h] = size.to_be_bytes();
    put_bytes(out, &[0, 60, 0, 0, a, b, c, d, e, f, g, h]);
}

/// Appends those of the first seven properties that are present.
pub(crate) fn put_front(out: &mut Vec<u8>, p: &Fields)
    requires fits { AreValues (front_of p.now) }
    requires room { vec_len out.old + length (values (front_of p.now)) ≤ vec_capacity out.old }
    ensures items { out.new.items ≡ out.old.items ++ values (front_of p.now) }
    ensures len { vec_len out.new ≡ vec_len out.old + length (values (front_of p.now)) }
    ensures capacity { vec_capacity out.old ≤ vec_capacity out.new }
{
    put_text(out, &p.content_type);
    put_text(out, &p.content_encoding);
    put_table(out, &p.headers);
    put_octet(out, &p.delivery_mode);
    put_octet(out, &p.priority);
    put_text(out, &p.correlation_id);
    put_text(out, &p.reply_to);
}

/// Appends those of the last seven properties that are present.
pub(crate) fn put_back(out: &mut Vec<u8>, p: &Fields)
    requires fits { AreValues (back_of p.now) }
    requires room { vec_len out.old + length (values (back_of p.now)) ≤ vec_capacity out.old }
    ensures items { out.new.items ≡ out.old.items ++ values (back_of p.now) }
    ensures len { vec_len out.new ≡ vec_len out.old + length (values (back_of p.now)) }
    ensures capacity { vec_capacity out.old ≤ vec_capacity out.new }
{
    put_text(out, &p.expiration);
    put_text(out, &p.message_id);
    put_time(out, &p.timestamp);
    put_text(out, &p.kind);
    put_text(out, &p.user_id);
    put_text(out, &p.app_id);
    put_text(out, &p.reserved);
}

fn put_text(out: &mut Vec<u8>, text: &Option<Text>)
    requires fits { IsValue (text_of text.now) }
    requires room { vec_len out.old + length (value_of (text_of text.now)) ≤ vec_capacity out.old }
    ensures items { out.new.items ≡ out.old.items ++ value_of (text_of text.now) }
    ensures len { vec_len out.new ≡ vec_len out.old + length (value_of (text_of text.now)) }
    ensures capacity { vec_capacity out.old ≤ vec_capacity out.new }
{
    match text {
        None => {}
        Some(text) => {
            out.push_reserved(text.len() as u8);
            put_bytes(out, text.as_bytes());
        }
    }
}

fn put_table(out: &mut Vec<u8>, table: &Option<Table>)
    requires fits { IsValue (table_of table.now) }
    requires room { vec_len out.old + length (value_of (table_of table.now)) ≤ vec_capacity out.old }
    ensures items { out.new.items ≡ out.old.items ++ value_of (table_of table.now) }
    ensures len { vec_len out.new ≡ vec_len out.old + length (value_of (table_of table.now)) }
    ensures capacity { vec_capacity out.old ≤ vec_capacity out.new }
{
    match table {
        None => {}
        Some(table) => {
            put_bytes(out, &(table.len() as u32).to_be_bytes());
            put_bytes(out, table.as_bytes());
        }
    }
}

fn put_octet(out: &mut Vec<u8>, number: &Option<u8>)
    requires { vec_len out.old + length (value_of (octet_of number.now)) ≤ vec_capacity out.old }
    ensures items { out.new.items ≡ out.old.items ++ value_of (octet_of number.now) }
    ensures len { vec_len out.new ≡ vec_len out.old + length (value_of (octet_of number.now)) }
    ensures capacity { vec_capacity out.old ≤ vec_capacity out.new }
{
    match number {
        None => {}
        Some(number) => out.push_reserved(*number),
    }
}

fn put_time(out: &mut Vec<u8>, time: &Option<u64>)
    requires { vec_len out.old + length (value_of (time_of time.now)) ≤ vec_capacity out.old }
    ensures items { out.new.items ≡ out.old.items ++ value_of (time_of time.now) }
    ensures len { vec_len out.new ≡ vec_len out.old + length (value_of (time_of time.now)) }
    ensures capacity { vec_capacity out.old ≤ vec_capacity out.new }
{
    match time {
        None => {}
        Some(time) => put_bytes(out, &time.to_be_bytes()),
    }
}
