//! Splits optional properties off the front of bytes, and leaves texts and the table as bytes.

ghost use Rattle.std.specs.Prelude.{◌≡◌, ◌<◌, option_map};
ghost use Rattle.model.specs.Headers.{octet_of, time_of};
ghost use Rattle.field_table.specs.Arguments.{an_octet, a_short_text, a_long_long, a_field_table};
ghost use Rattle.headers.specs.Properties;
ghost use Rattle.headers.specs.Properties.{option_at, options_at, properties_at, front_rows, back_rows};
ghost use Rattle.headers.specs.Unread.{text_in, table_in, front_in, back_in, parts_in};

use field_table::{long_long_at, octet_at, pairs_at, short_text_at};

/// The first seven properties, borrowed from a payload.
#[derive(Clone, Copy, Drop)]
pub(crate) struct Front<'a> {
    pub(crate) content_type: Option<&'a [u8]>,
    pub(crate) content_encoding: Option<&'a [u8]>,
    pub(crate) headers: Option<&'a [u8]>,
    pub(crate) delivery_mode: Option<u8>,
    pub(crate) priority: Option<u8>,
    pub(crate) correlation_id: Option<&'a [u8]>,
    pub(crate) reply_to: Option<&'a [u8]>,
}

/// The last seven properties, borrowed from a payload.
#[derive(Clone, Copy, Drop)]
pub(crate) struct Back<'a> {
    pub(crate) expiration: Option<&'a [u8]>,
    pub(crate) message_id: Option<&'a [u8]>,
    pub(crate) timestamp: Option<u64>,
    pub(crate) kind: Option<&'a [u8]>,
    pub(crate) user_id: Option<&'a [u8]>,
    pub(crate) app_id: Option<&'a [u8]>,
    pub(crate) reserved: Option<&'a [u8]>,
}

/// All fourteen properties, borrowed from a payload.
#[derive(Clone, Copy, Drop)]
pub(crate) struct Parts<'a> {
    pub(crate) front: Front<'a>,
    pub(crate) back: Back<'a>,
}

/// Reads all of `bytes` as the properties that `flags` name. Returns `None` if they aren't exactly that, or if bit 1 or 0 is set.
pub(crate) fn parts_at(flags: u16, bytes: &[u8]) -> Option<Parts<'_>>
    ensures { option_map parts_in result ≡ properties_at flags bytes.now }
{
    if flags % 4 != 0 {
        return None;
    }
    let (front, rest) = front_at(flags, bytes)?;
    let (back, rest) = back_at(flags, rest)?;
    if !rest.is_empty() {
        return None;
    }
    Some(Parts { front, back })
}

/// Splits those of the first seven properties that `flags` name off the front, and returns them with the rest, or `None` if they aren't all there.
fn front_at(flags: u16, bytes: &[u8]) -> Option<(Front<'_>, &[u8])>
    ensures { option_map (λ x. (front_in x.0, x.1.now)) result ≡ options_at flags front_rows bytes.now }
{
    let (content_type, rest) = text_at(has(flags, 15), bytes)?;
    let (content_encoding, rest) = text_at(has(flags, 14), rest)?;
    let (headers, rest) = table_at(has(flags, 13), rest)?;
    let (delivery_mode, rest) = number_at(has(flags, 12), rest)?;
    let (priority, rest) = number_at(has(flags, 11), rest)?;
    let (correlation_id, rest) = text_at(has(flags, 10), rest)?;
    let (reply_to, rest) = text_at(has(flags, 9), rest)?;
    let front = Front {
        content_type,
        content_encoding,
        headers,
        delivery_mode,
        priority,
        correlation_id,
        reply_to,
    };
    Some((front, rest))
}

/// Splits those of the last seven properties that `flags` name off the front, and returns them with the rest, or `None` if they aren't all there.
fn back_at(flags: u16, bytes: &[u8]) -> Option<(Back<'_>, &[u8])>
    ensures { option_map (λ x. (back_in x.0, x.1.now)) result ≡ options_at flags back_rows bytes.now }
{
    let (expiration, rest) = text_at(has(flags, 8), bytes)?;
    let (message_id, rest) = text_at(has(flags, 7), rest)?;
    let (timestamp, rest) = time_at(has(flags, 6), rest)?;
    let (kind, rest) = text_at(has(flags, 5), rest)?;
    let (user_id, rest) = text_at(has(flags, 4), rest)?;
    let (app_id, rest) = text_at(has(flags, 3), rest)?;
    let (reserved, rest) = text_at(has(flags, 2), rest)?;
    let back = Back {
        expiration,
        message_id,
        timestamp,
        kind,
        user_id,
        app_id,
        reserved,
    };
    Some((back, rest))
}

/// Returns whether `flags` have bit number `bit`, from 0.
fn has(flags: u16, bit: u32) -> bool
    requires { bit < 16 }
    ensures { result ≡ Properties.has_flag flags bit }
{
    flags >> bit & 1 == 1
}

fn text_at(is: bool, bytes: &[u8]) -> Option<(Option<&[u8]>, &[u8])>
    ensures { option_map (λ x. (text_in x.0, x.1.now)) result ≡ option_at is a_short_text bytes.now }
{
    if !is {
        return Some((None, bytes));
    }
    let (text, rest) = short_text_at(bytes)?;
    Some((Some(text), rest))
}

fn table_at(is: bool, bytes: &[u8]) -> Option<(Option<&[u8]>, &[u8])>
    ensures { option_map (λ x. (table_in x.0, x.1.now)) result ≡ option_at is a_field_table bytes.now }
{
    if !is {
        return Some((None, bytes));
    }
    let (pairs, rest) = pairs_at(bytes)?;
    Some((Some(pairs), rest))
}

fn number_at(is: bool, bytes: &[u8]) -> Option<(Option<u8>, &[u8])>
    ensures { option_map (λ x. (octet_of x.0, x.1.now)) result ≡ option_at is an_octet bytes.now }
{
    if !is {
        return Some((None, bytes));
    }
    let (number, rest) = octet_at(bytes)?;
    Some((Some(number), rest))
}

fn time_at(is: bool, bytes: &[u8]) -> Option<(Option<u64>, &[u8])>
    ensures { option_map (λ x. (time_of x.0, x.1.now)) result ≡ option_at is a_long_long bytes.now }
{
    if !is {
        return Some((None, bytes));
    }
    let (time, rest) = long_long_at(bytes)?;
    Some((Some(time), rest))
}
