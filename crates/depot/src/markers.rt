//! Makes the contents of dead letters, one after another.

ghost use Rattle.std.specs.Prelude.{◌≡◌, IfOk, IfSome, IsTrue};
ghost use Rattle.depot.specs.Marked.{ArePropertiesMarked};
ghost use Rattle.depot.specs.Kept.{IsRight};

use crate::marking::marked;
use headers::ghost_one_header;
use model::{Content, Form, Properties, Text};
use std::alloc::{AllocError, Global};
use std::marker::Model;

/// A remembered marking: the properties `before` and `after` it, of a message that died in `queue` and was last sent to `exchange`.
#[derive(Drop)]
struct Marking {
    queue: Text,
    exchange: Text,
    before: Properties,
    after: Properties,
}

/// Returns whether both properties are kept in encoded form and are the same bytes.
fn are_alike(some: &Properties, others: &Properties) -> bool
    ensures { IsTrue result → some.now ≡ others.now }
{
    ghost_one_header();
    match (some.form(), others.form()) {
        (Form::Spelled(some), Form::Spelled(others)) => some == others,
        _ => false,
    }
}

/// Returns the result of marking `properties` for `queue` and `exchange`, if `last` remembers it.
fn kept<'a>(
    last: &'a Option<Marking>,
    queue: &Text,
    exchange: &Text,
    properties: &Properties,
) -> Option<&'a Properties>
    requires { IsRight last.now }
    ensures { IfSome result (λ p. ArePropertiesMarked queue.now exchange.now properties.now p.now) }
{
    let Some(last) = last else {
        return None;
    };
    if last.queue.as_bytes() == queue.as_bytes()
        && last.exchange.as_bytes() == exchange.as_bytes()
        && are_alike(&last.before, properties)
    {
        return Some(&last.after);
    }
    None
}

/// Returns `properties` marked for `queue` and `exchange`: the result that `last` remembers, if it is for these three; otherwise marks them, and
/// remembers the result in `last`. Fails only if an allocation fails.
fn marked_once(
    alloc: Global,
    last: &mut Option<Marking>,
    queue: &Text,
    exchange: &Text,
    properties: &Properties,
) -> Result<Properties, AllocError>
    requires { IsRight last.old }
    ensures right { IsRight last.new }
    ensures marked { IfOk result (ArePropertiesMarked queue.now exchange.now properties.now) }
{
    if let Some(after) = kept(last, queue, exchange, properties) {
        return after.clone();
    }
    let after = marked(alloc, queue, exchange, properties)?;
    *last = Some(Marking {
        queue: queue.clone()?,
        exchange: exchange.clone()?,
        before: properties.clone()?,
        after: after.clone()?,
    });
    Ok(after)
}

/// Makes the contents of dead letters. Remembers the last result, so that properties with the same encoding are marked once.
/// What it returns doesn't depend on what it remembers.
pub(crate) struct Marker {
    last: Option<Marking>,
}

/// Not derived: a derived drop is expanded, and proved again, in each function that drops the value.
impl Drop for Marker {
    fn drop(self) {
        let Marker { last: _ } = self;
    }
}

impl Model for Marker {
    ghost use Rattle.depot.specs.Kept.{IsRight};

    ghost Value = { Unit {0} };

    ghost view = { λ _. tt };

    ghost invariant = { λ m. IsRight m.last };
}

impl Marker {
    ghost use Rattle.std.specs.Prelude.{IfOk};
    ghost use Rattle.depot.specs.Marked.{IsMarked};

    /// Makes a marker that remembers nothing. Never allocates.
    pub(crate) fn new() -> Marker {
        Marker { last: None }
    }

    /// Returns the content of a message that dies in `queue`, last sent to `exchange`: its headers name its first death, in whatever queue that
    /// was. The body is shared, and so are the headers if they name a death already. Fails only if an allocation fails.
    pub(crate) fn marked(
        &mut self,
        alloc: Global,
        queue: &Text,
        exchange: &Text,
        content: &Content,
    ) -> Result<Content, AllocError>
        ensures { IfOk result (IsMarked queue.now exchange.now content.now) }
    {
        Ok(Content {
            properties: marked_once(alloc, &mut self.last, queue, exchange, &content.properties)?,
            body: content.body.clone()?,
        })
    }
}
