//! Computes encoded lengths and flags, and finds out whether properties can be encoded.

ghost use Rattle.std.specs.Prelude.{◌≡◌, ◌+◌, ◌<◌, ◌≤◌, ◌^◌, length, is_some, IfSome};
ghost use Rattle.model.specs.Headers.{text_of, table_of, octet_of, time_of, value_of, IsValue};
ghost use Rattle.field_table.specs.Writing.{GivesLength};
ghost use Rattle.headers.specs.Writing;
ghost use Rattle.headers.specs.Writing.{front_of, back_of, values, AreValues};

use field_table::is_table;
use model::{Fields, Table, Text};

/// Returns the encoded length in bytes of the first seven properties (content-type to reply-to), or `None` if they can't be encoded.
pub(crate) fn front_len(p: &Fields) -> Option<usize>
    ensures cases { GivesLength (AreValues (front_of p.now)) (values (front_of p.now)) result }
    ensures bound { IfSome result (λ n. n < 2 ^ 34) }
{
    let content_type = text_len(&p.content_type)?;
    let content_encoding = text_len(&p.content_encoding)?;
    let headers = table_len(&p.headers)?;
    let numbers = octet_len(&p.delivery_mode) + octet_len(&p.priority);
    let correlation_id = text_len(&p.correlation_id)?;
    let reply_to = text_len(&p.reply_to)?;
    Some(content_type + content_encoding + headers + numbers + correlation_id + reply_to)
}

/// Returns the encoded length in bytes of the last seven properties (expiration to the reserved one), or `None` if they can't be encoded.
pub(crate) fn back_len(p: &Fields) -> Option<usize>
    ensures cases { GivesLength (AreValues (back_of p.now)) (values (back_of p.now)) result }
    ensures bound { IfSome result (λ n. n < 2 ^ 12) }
{
    let expiration = text_len(&p.expiration)?;
    let message_id = text_len(&p.message_id)?;
    let timestamp = time_len(&p.timestamp);
    let kind = text_len(&p.kind)?;
    let user_id = text_len(&p.user_id)?;
    let app_id = text_len(&p.app_id)?;
    let reserved = text_len(&p.reserved)?;
    Some(expiration + message_id + timestamp + kind + user_id + app_id + reserved)
}

fn text_len(text: &Option<Text>) -> Option<usize>
    ensures cases { GivesLength (IsValue (text_of text.now)) (value_of (text_of text.now)) result }
    ensures bound { IfSome result (λ n. n ≤ 256) }
{
    match text {
        None => Some(0),
        Some(text) => {
            if text.len() < 256 {
                Some(1 + text.len())
            } else {
                None
            }
        }
    }
}

fn table_len(table: &Option<Table>) -> Option<usize>
    ensures cases { GivesLength (IsValue (table_of table.now)) (value_of (table_of table.now)) result }
    ensures bound { IfSome result (λ n. n < 2 ^ 33) }
{
    match table {
        None => Some(0),
        Some(table) => {
            if table.len() < 0x1_0000_0000 && is_table(table.as_bytes()) {
                Some(4 + table.len())
            } else {
                None
            }
        }
    }
}

fn octet_len(number: &Option<u8>) -> usize
    ensures fits { IsValue (octet_of number.now) }
    ensures is { result ≡ length (value_of (octet_of number.now)) }
    ensures bound { result ≤ 1 }
{
    match number {
        None => 0,
        Some(number) => {
            let _number = *number;
            1
        }
    }
}

fn time_len(time: &Option<u64>) -> usize
    ensures fits { IsValue (time_of time.now) }
    ensures is { result ≡ length (value_of (time_of time.now)) }
    ensures bound { result ≤ 8 }
{
    match time {
        None => 0,
        Some(time) => {
            let _time = *time;
            8
        }
    }
}

/// Returns the flags of the first seven properties: bits 15 to 9.
pub(crate) fn front_flags(p: &Fields) -> u16
    ensures is { result ≡ Writing.front_flags p.now }
    ensures bound { result ≤ 65024 }
{
    flag(&p.content_type, 0x8000)
        + flag(&p.content_encoding, 0x4000)
        + flag(&p.headers, 0x2000)
        + flag(&p.delivery_mode, 0x1000)
        + flag(&p.priority, 0x0800)
        + flag(&p.correlation_id, 0x0400)
        + flag(&p.reply_to, 0x0200)
}

/// Returns the flags of the last seven properties: bits 8 to 2.
pub(crate) fn back_flags(p: &Fields) -> u16
    ensures is { result ≡ Writing.back_flags p.now }
    ensures bound { result ≤ 508 }
{
    flag(&p.expiration, 0x0100)
        + flag(&p.message_id, 0x0080)
        + flag(&p.timestamp, 0x0040)
        + flag(&p.kind, 0x0020)
        + flag(&p.user_id, 0x0010)
        + flag(&p.app_id, 0x0008)
        + flag(&p.reserved, 0x0004)
}

/// Returns `bit` if `property` is present, or else 0.
fn flag<T>(property: &Option<T>, bit: u16) -> u16
    ensures is { result ≡ Writing.flag (is_some property.now) bit }
    ensures bound { result ≤ bit }
{
    match property {
        Some(_) => bit,
        None => 0,
    }
}
