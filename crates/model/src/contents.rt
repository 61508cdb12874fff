//! The content of a publish: its properties and its body.

ghost use Rattle.std.specs.Prelude.{◌≡◌, IfOk};
ghost use Rattle.model.specs.Headers.{no_properties};
ghost use Rattle.model.specs.Kept.{view_of, IsKeptText};
ghost use Rattle.model.specs.Properties.{spelled_by, IsSpelling};

use crate::bodies::Body;
use crate::places::{first_of, padded};
use crate::tables::Table;
use crate::texts::Text;
use std::alloc::{AllocError, Global};
use std::marker::Model;
use std::sync::Arc;

/// The fourteen properties of a content, as separate fields. The broker passes all of them on, and changes only `headers`.
///
/// Source: AMQP 0-9-1, section 4.2.6.1, "The Content Header", and the `basic` class of its XML.
pub struct Fields {
    pub content_type: Option<Text>,
    pub content_encoding: Option<Text>,
    pub headers: Option<Table>,
    pub delivery_mode: Option<u8>,
    pub priority: Option<u8>,
    pub correlation_id: Option<Text>,
    pub reply_to: Option<Text>,
    pub expiration: Option<Text>,
    pub message_id: Option<Text>,
    pub timestamp: Option<u64>,
    pub kind: Option<Text>,
    pub user_id: Option<Text>,
    pub app_id: Option<Text>,
    pub reserved: Option<Text>,
}

/// Not derived: a derived drop is expanded, and proved again, in each function that drops the value.
impl Drop for Fields {
    fn drop(self) {
        let Fields {
            content_type: _,
            content_encoding: _,
            headers: _,
            delivery_mode: _,
            priority: _,
            correlation_id: _,
            reply_to: _,
            expiration: _,
            message_id: _,
            timestamp: _,
            kind: _,
            user_id: _,
            app_id: _,
            reserved: _,
        } = self;
    }
}

impl Fields {
    /// Returns fields with no property set.
    pub fn none() -> Fields
        ensures { result ≡ no_properties }
    {
        Fields {
            content_type: None,
            content_encoding: None,
            headers: None,
            delivery_mode: None,
            priority: None,
            correlation_id: None,
            reply_to: None,
            expiration: None,
            message_id: None,
            timestamp: None,
            kind: None,
            user_id: None,
            app_id: None,
            reserved: None,
        }
    }

    /// Returns the same fields, sharing their bytes.
    pub fn clone(&self) -> Result<Fields, AllocError>
        ensures { IfOk result (λ fields. fields ≡ self.now) }
    {
        Ok(Fields {
            content_type: shared(&self.content_type)?,
            content_encoding: shared(&self.content_encoding)?,
            headers: shared_table(&self.headers)?,
            delivery_mode: self.delivery_mode,
            priority: self.priority,
            correlation_id: shared(&self.correlation_id)?,
            reply_to: shared(&self.reply_to)?,
            expiration: shared(&self.expiration)?,
            message_id: shared(&self.message_id)?,
            timestamp: self.timestamp,
            kind: shared(&self.kind)?,
            user_id: shared(&self.user_id)?,
            app_id: shared(&self.app_id)?,
            reserved: shared(&self.reserved)?,
        })
    }
}

/// Returns the same text, if there is one, sharing its bytes.
fn shared(text: &Option<Text>) -> Result<Option<Text>, AllocError>
    ensures { IfOk result (λ same. same ≡ text.now) }
{
    match text {
        None => Ok(None),
        Some(text) => Ok(Some(text.clone()?)),
    }
}

/// Returns the same table, if there is one, sharing its bytes.
fn shared_table(table: &Option<Table>) -> Result<Option<Table>, AllocError>
    ensures { IfOk result (λ same. same ≡ table.now) }
{
    match table {
        None => Ok(None),
        Some(table) => Ok(Some(table.clone()?)),
    }
}

/// The bytes of flags and values if no property is set.
const NONE: &[u8] = &[0, 0];

/// The most bytes of flags and values that a small block holds.
const MOST_SMALL: usize = 48;

/// The most bytes of flags and values that a larger block holds.
const MOST_LARGER: usize = 80;

/// How properties are kept. "Flags and values" are the bytes that follow the size of the body in a content header.
#[derive(Drop)]
enum Kept {
    /// No property is set.
    Empty,
    /// Flags and values: their length, and a block that begins with them.
    Small(u8, Arc<[u8; 48]>),
    /// Flags and values in a larger block.
    Larger(u8, Arc<[u8; 80]>),
    /// Flags and values that are longer than a larger block.
    Spelled(Arc<Vec<u8>>),
    /// Separate fields.
    Apart(Arc<Fields>),
}

/// Moves `value` into a block of its own. Fails only if the allocation fails.
fn in_block<T: Drop>(alloc: Global, value: T) -> Result<Arc<T>, AllocError>
    ensures { IfOk result (λ block. block.value ≡ value) }
{
    match Arc::new(alloc, value) {
        Ok(block) => Ok(block),
        Err(_) => Err(AllocError),
    }
}

/// Copies flags and values into the smallest block that holds them. Fails only if an allocation fails.
fn keep(alloc: Global, bytes: &[u8]) -> Result<Kept, AllocError>
    requires { IsSpelling bytes.now }
    ensures { IfOk result (λ kept. IsKeptText kept × (view_of kept ≡ spelled_by bytes.now)) }
{
    let len = bytes.len();
    if len <= MOST_SMALL {
        return Ok(Kept::Small(len as u8, in_block(alloc, padded(bytes))?));
    }
    if len <= MOST_LARGER {
        return Ok(Kept::Larger(len as u8, in_block(alloc, padded(bytes))?));
    }
    Ok(Kept::Spelled(in_block(alloc, Vec::from_slice(alloc, bytes)?)?))
}

/// Properties, in the form in which they are kept.
#[derive(Clone, Copy, Drop)]
pub enum Form<'a> {
    /// Flags and values: the bytes that follow the size of the body in a content header.
    Spelled(&'a [u8]),
    /// Separate fields.
    Apart(&'a Fields),
}

/// The properties of a content, in a value of 16 bytes. Clones share them, and there is no block if none is set.
///
/// Properties that were read are kept as the bytes of their header, so an unset one takes no memory.
pub struct Properties {
    kept: Kept,
}

/// Not derived: a derived drop is expanded, and proved again, in each function that drops the value.
impl Drop for Properties {
    fn drop(self) {
        let Properties { kept: _ } = self;
    }
}

impl Model for Properties {
    ghost use Rattle.model.specs.Headers.{no_properties};
    ghost use Rattle.model.specs.Properties.{spelled_by, IsSpelling};
    ghost use Rattle.model.specs.Kept.{view_of, IsKeptText};
    ghost use Rattle.model.specs.declared.contents.Fields.{Fields as Seen};

    ghost Value = { Seen };

    ghost view = { λ p. view_of p.kept };

    ghost invariant = { λ p. IsKeptText p.kept };
}

impl Properties {
    ghost use Rattle.model.specs.Headers.{AreProperties};
    ghost use Rattle.model.specs.Properties.{properties_bytes, IsSpelling};
    ghost use Rattle.model.specs.Forms.{IsFormOf};

    /// Returns properties with none set. Never allocates.
    pub fn none() -> Properties
        ensures { result ≡ no_properties }
    {
        Properties { kept: Kept::Empty }
    }

    /// Returns the properties `fields`. Fails only if an allocation fails.
    pub fn new(alloc: Global, fields: Fields) -> Result<Properties, AllocError>
        ensures { IfOk result (λ p. p ≡ fields) }
    {
        match Arc::new(alloc, fields) {
            Ok(shared) => Ok(Properties {
                kept: Kept::Apart(shared),
            }),
            Err(_) => Err(AllocError),
        }
    }

    /// Copies `bytes`, the flags and values of a header, and returns the properties that they spell. Fails only if an allocation fails.
    pub fn spelled(alloc: Global, bytes: &[u8]) -> Result<Properties, AllocError>
        requires { IsSpelling bytes.now }
        ensures { IfOk result (λ p. AreProperties p × (bytes.now ≡ properties_bytes p)) }
    {
        Ok(Properties {
            kept: keep(alloc, bytes)?,
        })
    }

    /// Returns the properties in the form in which they are kept: flags and values, or separate fields.
    pub fn form(&self) -> Form<'_>
        ensures { IsFormOf self.now result }
    {
        match &self.kept {
            Kept::Empty => Form::Spelled(NONE),
            Kept::Small(len, shared) => Form::Spelled(first_of(&shared[..], *len)),
            Kept::Larger(len, shared) => Form::Spelled(first_of(&shared[..], *len)),
            Kept::Spelled(shared) => Form::Spelled(shared.as_slice()),
            Kept::Apart(shared) => Form::Apart(&**shared),
        }
    }

    /// Returns the same properties, sharing their bytes.
    pub fn clone(&self) -> Result<Properties, AllocError>
        ensures { IfOk result (λ p. p ≡ self.now) }
    {
        match &self.kept {
            Kept::Empty => Ok(Properties::none()),
            Kept::Small(len, shared) => Ok(Properties {
                kept: Kept::Small(*len, Arc::try_clone(shared)?),
            }),
            Kept::Larger(len, shared) => Ok(Properties {
                kept: Kept::Larger(*len, Arc::try_clone(shared)?),
            }),
            Kept::Spelled(shared) => Ok(Properties {
                kept: Kept::Spelled(Arc::try_clone(shared)?),
            }),
            Kept::Apart(shared) => Ok(Properties {
                kept: Kept::Apart(Arc::try_clone(shared)?),
            }),
        }
    }
}

/// The content of a message: its properties and its body.
pub struct Content {
    pub properties: Properties,
    pub body: Body,
}

/// Not derived: a derived drop is expanded, and proved again, in each function that drops the value.
impl Drop for Content {
    fn drop(self) {
        let Content {
            properties: _,
            body: _,
        } = self;
    }
}

impl Content {
    /// Returns the same content, sharing its bytes.
    pub fn clone(&self) -> Result<Content, AllocError>
        ensures { IfOk result (λ c. c ≡ self.now) }
    {
        Ok(Content {
            properties: self.properties.clone()?,
            body: self.body.clone()?,
        })
    }
}
