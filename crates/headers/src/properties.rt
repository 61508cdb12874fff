//! Checks properties that were read, and copies them.

ghost use Rattle.std.specs.Prelude.{◌≡◌, ◌++◌, MatchBool, IfOk};
ghost use Rattle.std.specs.Int.{w16, to_be_bytes};
ghost use Rattle.model.specs.Headers.{text_of, table_of, properties_of};
ghost use Rattle.headers.specs.Properties.{properties_at};
ghost use Rattle.headers.specs.Unread.{text_in, table_in, pairs_in, front_in, parts_in, HeadersAreWhole, GivesProperties, CopiesFront, CopiesBack};

use crate::contents::BadHeader;
use crate::optional::{Back, Front, Parts, parts_at};
use field_table::is_table;
use model::{Fields, Properties, Table, Text};
use std::alloc::{AllocError, Global};

/// Reads all of `bytes` as the properties that `flags` name. `spelled` are the two bytes of the flags followed by `bytes`.
pub(crate) fn properties_in(
    alloc: Global,
    flags: u16,
    bytes: &[u8],
    spelled: &[u8],
) -> Result<Properties, BadHeader>
    requires { spelled.now ≡ to_be_bytes w16 flags ++ bytes.now }
    ensures { GivesProperties result (properties_at flags bytes.now) }
{
    if flags == 0 && bytes.is_empty() {
        return Ok(Properties::none());
    }
    flagged_in(alloc, flags, bytes, spelled)
}

/// Does what [`properties_in`] does, without its shortcut for no properties.
fn flagged_in(
    alloc: Global,
    flags: u16,
    bytes: &[u8],
    spelled: &[u8],
) -> Result<Properties, BadHeader>
    requires { spelled.now ≡ to_be_bytes w16 flags ++ bytes.now }
    ensures { GivesProperties result (properties_at flags bytes.now) }
{
    let Some(parts) = parts_at(flags, bytes) else {
        return Err(BadHeader::SyntaxError);
    };
    if !is_whole(parts.front.headers) {
        return Err(BadHeader::SyntaxError);
    }
    match Properties::spelled(alloc, spelled) {
        Ok(properties) => Ok(properties),
        Err(_) => Err(BadHeader::Memory),
    }
}

/// Returns whether `pairs` are the pairs of a table, or `true` if there are none.
fn is_whole(pairs: Option<&[u8]>) -> bool
    ensures { MatchBool result (HeadersAreWhole (pairs_in pairs.entry)) (HeadersAreWhole (pairs_in pairs.entry) → ⊥) }
{
    match pairs {
        None => true,
        Some(pairs) => is_table(pairs),
    }
}

/// Copies `parts` into properties of their own. Fails only if an allocation fails.
pub(crate) fn copied(alloc: Global, parts: &Parts<'_>) -> Result<Fields, AllocError>
    ensures { IfOk result (λ p. properties_of p ≡ parts_in parts.now) }
{
    let mut fields = Fields::none();
    copy_front(alloc, &mut fields, &parts.front)?;
    copy_back(alloc, &mut fields, &parts.back)?;
    Ok(fields)
}

/// Copies the first seven properties into `fields`. Fails only if an allocation fails.
fn copy_front(alloc: Global, fields: &mut Fields, front: &Front<'_>) -> Result<(), AllocError>
    ensures { IfOk result (λ _. CopiesFront front.now fields.new) }
{
    fields.content_type = text(alloc, front.content_type)?;
    fields.content_encoding = text(alloc, front.content_encoding)?;
    fields.headers = table(alloc, front.headers)?;
    fields.delivery_mode = front.delivery_mode;
    fields.priority = front.priority;
    fields.correlation_id = text(alloc, front.correlation_id)?;
    fields.reply_to = text(alloc, front.reply_to)?;
    Ok(())
}

/// Copies the last seven properties into `fields`, and leaves the first seven as they are. Fails only if an allocation fails.
fn copy_back(alloc: Global, fields: &mut Fields, back: &Back<'_>) -> Result<(), AllocError>
    ensures { IfOk result (λ _. CopiesBack back.now fields.old fields.new) }
{
    fields.expiration = text(alloc, back.expiration)?;
    fields.message_id = text(alloc, back.message_id)?;
    fields.timestamp = back.timestamp;
    fields.kind = text(alloc, back.kind)?;
    fields.user_id = text(alloc, back.user_id)?;
    fields.app_id = text(alloc, back.app_id)?;
    fields.reserved = text(alloc, back.reserved)?;
    Ok(())
}

/// Copies a text, if there is one. Fails only if an allocation fails.
fn text(alloc: Global, bytes: Option<&[u8]>) -> Result<Option<Text>, AllocError>
    ensures { IfOk result (λ t. text_of t ≡ text_in bytes.entry) }
{
    match bytes {
        None => Ok(None),
        Some(bytes) => Ok(Some(Text::from_slice(alloc, bytes)?)),
    }
}

/// Copies a table, if there is one. Fails only if an allocation fails.
fn table(alloc: Global, pairs: Option<&[u8]>) -> Result<Option<Table>, AllocError>
    ensures { IfOk result (λ t. table_of t ≡ table_in pairs.entry) }
{
    match pairs {
        None => Ok(None),
        Some(pairs) => Ok(Some(Table::from_pairs(Text::from_slice(alloc, pairs)?))),
    }
}
