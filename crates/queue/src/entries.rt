//! Reads and changes the mark of an entry.

ghost use Rattle.std.specs.Prelude.{◌≡◌};
ghost use Rattle.model.specs.Broker.{is_ready};
ghost use Rattle.model.specs.Entries.{is_under, is_held_as, freed, freed_now, held_as};
ghost use Rattle.model.specs.Reloading.{survived_now};

use model::{Entry, Holder, Mark};

/// Returns whether `holder` and `other` are the same delivery tag of the same channel of the same connection.
fn is_same(holder: &Holder, other: &Holder) -> bool
    ensures { result ≡ is_under holder.now other.now }
{
    other.connection == holder.connection
        && other.channel == holder.channel
        && other.tag == holder.tag
}

/// Returns whether the message is ready.
pub(crate) fn is_free(entry: &Entry) -> bool
    ensures { result ≡ is_ready entry.now }
{
    matches!(entry.mark, Mark::Ready)
}

/// Returns whether the message is held by `holder`.
pub(crate) fn is_held_under(entry: &Entry, holder: &Holder) -> bool
    ensures { result ≡ is_held_as holder.now entry.now }
{
    match &entry.mark {
        Mark::Ready => false,
        Mark::Held(other) => is_same(holder, other),
    }
}

/// Makes the message ready again, and marks it as redelivered.
pub(crate) fn free(entry: &mut Entry)
    ensures { entry.new ≡ freed_now entry.old }
{
    entry.mark = Mark::Ready;
    entry.message.redeliver();
}

/// Marks the message as held by `holder`.
pub(crate) fn hold(entry: &mut Entry, holder: Holder)
    ensures { entry.new ≡ held_as holder entry.old }
{
    entry.mark = Mark::Held(holder);
}

/// Makes the message ready again if it is held by `holder`.
pub(crate) fn free_under(entry: &mut Entry, holder: &Holder)
    ensures { entry.new ≡ freed (is_under holder.now) entry.old }
{
    if is_held_under(entry, holder) {
        free(entry);
    }
}

/// Marks the message as one that a reload found here.
pub(crate) fn mark_survived(entry: &mut Entry)
    ensures { entry.new ≡ survived_now entry.old }
{
    entry.message.mark_survived();
}
