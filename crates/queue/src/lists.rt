//! The calls of a queue over a vector of entries.

ghost use Rattle.std.specs.Prelude.{◌≡◌, ◌<◌, ◌≤◌, ◌+◌, ◌∷◌, ◌++◌, [], take, drop, get_or, find, filter, map, not, is_some, option_map, vec_len, vec_capacity};
ghost use Rattle.std.specs.List.{position_from};
ghost use Rattle.model.specs.Broker as seen;
ghost use Rattle.model.specs.Broker.{is_ready};
ghost use Rattle.model.specs.Entries.{is_under, is_held_as, held_as, change_first, without_first, number_of};
ghost use Rattle.model.specs.Reloading.{survived_now};
ghost use Rattle.queue.specs.Line as seen_line;
ghost use Rattle.queue.specs.Blocks as blocks;
ghost use Rattle.queue.specs.Line.{requeued};
ghost use Rattle.queue.specs.Slots.{IsNoLonger, KeepsSize};

use crate::entries::{free_under, hold, is_free, is_held_under, mark_survived};
use model::{Entry, Holder};

/// Returns the number of ready entries.
pub(crate) fn ready_count(entries: &[Entry]) -> usize
    ensures { result ≡ seen_line.ready_count entries.now }
{
    entries.iter().filter(|entry| is_free(entry)).count()
}

/// Returns the length in bytes of the body of `entry` if it is ready, otherwise 0.
fn ready_size(entry: &Entry) -> usize
    ensures { result ≡ blocks.ready_size entry.now }
{
    if is_free(entry) {
        entry.message.content().body.len()
    } else {
        0
    }
}

/// Returns the number of bytes of the ready entries' bodies.
pub(crate) fn ready_bytes(entries: &[Entry]) -> u128
    ensures { result ≡ seen.ready_bytes entries.now }
{
    let mut bytes = 0;
    for entry in entries {
        bytes += ready_size(entry) as u128;
    }
    bytes
}

/// Returns the first ready entry, if any.
pub(crate) fn first_ready(entries: &[Entry]) -> Option<&Entry>
    ensures { option_map (λ e. e.now) result ≡ find is_ready entries.now }
{
    entries.iter().find(|entry| is_free(entry))
}

/// Returns the index of the first ready entry.
fn place_ready(entries: &[Entry]) -> Option<usize>
    ensures { result ≡ position_from is_ready 0 entries.now }
{
    entries.iter().position(|entry| is_free(entry))
}

/// Marks the first ready entry, if any, as held by `holder`. Returns whether there is one.
pub(crate) fn hold_first(entries: &mut Vec<Entry>, holder: Holder) -> bool
    ensures reported { result ≡ is_some (find is_ready entries.old.items) }
    ensures entries { entries.new.items ≡ change_first is_ready (held_as holder) entries.old.items }
    ensures size { KeepsSize entries.old entries.new }
{
    match place_ready(entries) {
        None => false,
        Some(place) => {
            hold(&mut entries[place], holder);
            true
        }
    }
}

/// Removes and returns the entry at index `place`.
fn take_at(entries: &mut Vec<Entry>, place: usize) -> Entry
    requires { place < vec_len entries.old }
    ensures entry { result ≡ get_or entries.old.items place result }
    ensures entries { entries.new.items ≡ take place entries.old.items ++ drop (place + 1) entries.old.items }
    ensures size { IsNoLonger entries.old entries.new }
{
    entries.remove(place)
}

/// Removes and returns the first ready entry, if any.
pub(crate) fn take_first(entries: &mut Vec<Entry>) -> Option<Entry>
    ensures taken { result ≡ find is_ready entries.old.items }
    ensures entries { entries.new.items ≡ without_first is_ready entries.old.items }
    ensures size { IsNoLonger entries.old entries.new }
{
    match place_ready(entries) {
        None => None,
        Some(place) => Some(take_at(entries, place)),
    }
}

/// Returns the first entry held by `holder`.
pub(crate) fn first_held<'a>(entries: &'a [Entry], holder: &Holder) -> Option<&'a Entry>
    ensures { option_map (λ e. e.now) result ≡ find (is_held_as holder.now) entries.now }
{
    entries.iter().find(|entry| is_held_under(entry, holder))
}

/// Makes all entries held by `holder` ready again, and marks them as redelivered. Returns whether there is one.
pub(crate) fn release(entries: &mut Vec<Entry>, holder: &Holder) -> bool
    ensures reported { result ≡ is_some (find (is_held_as holder.now) entries.old.items) }
    ensures entries { entries.new.items ≡ requeued (is_under holder.now) entries.old.items }
    ensures size { KeepsSize entries.old entries.new }
{
    let is_held = first_held(entries, holder).is_some();
    free_all(entries, holder);
    is_held
}

/// Makes all entries held by `holder` ready again, and marks them as redelivered.
fn free_all(entries: &mut [Entry], holder: &Holder)
    ensures { entries.new ≡ requeued (is_under holder.now) entries.old }
{
    for entry in entries.iter_mut() {
        free_under(entry, holder);
    }
}

/// Returns the index of the first entry held by `holder`.
fn index_held(entries: &[Entry], holder: &Holder) -> Option<usize>
    ensures { result ≡ position_from (is_held_as holder.now) 0 entries.now }
{
    entries
        .iter()
        .position(|entry| is_held_under(entry, holder))
}

/// Removes and returns the first entry held by `holder`, if any.
fn take_held(entries: &mut Vec<Entry>, holder: &Holder) -> Option<Entry>
    ensures taken { result ≡ find (is_held_as holder.now) entries.old.items }
    ensures entries { entries.new.items ≡ without_first (is_held_as holder.now) entries.old.items }
    ensures size { IsNoLonger entries.old entries.new }
{
    match index_held(entries, holder) {
        None => None,
        Some(place) => Some(take_at(entries, place)),
    }
}

/// Removes all entries held by `holder`.
fn drop_held(entries: &mut Vec<Entry>, holder: &Holder)
    ensures entries { entries.new.items ≡ filter (λ e. not (is_held_as holder.now e)) entries.old.items }
    ensures size { IsNoLonger entries.old entries.new }
{
    entries.retain(|entry| !is_held_under(entry, holder));
}

/// Removes all entries held by `holder`, and returns the first of them. There may be more than one: nothing here excludes it.
pub(crate) fn remove(entries: &mut Vec<Entry>, holder: &Holder) -> Option<Entry>
    ensures taken { result ≡ find (is_held_as holder.now) entries.old.items }
    ensures entries { entries.new.items ≡ filter (λ e. not (is_held_as holder.now e)) entries.old.items }
    ensures size { IsNoLonger entries.old entries.new }
{
    let entry = take_held(entries, holder);
    drop_held(entries, holder);
    entry
}

/// Appends the publish number of `entry` to `numbers` if the entry is ready. `numbers` has capacity for it.
fn append_number(entry: &Entry, numbers: &mut Vec<u64>)
    requires { vec_len numbers.old + seen_line.ready_count (entry.now ∷ []) ≤ vec_capacity numbers.old }
    ensures numbers { numbers.new.items ≡ numbers.old.items ++ map number_of (filter is_ready (entry.now ∷ [])) }
    ensures capacity { vec_capacity numbers.new ≡ vec_capacity numbers.old }
{
    if is_free(entry) {
        numbers.push_reserved(entry.message.number());
    }
}

/// Appends the publish numbers of the ready entries to `numbers`, in order. `numbers` has capacity for them.
fn append_numbers(entries: &[Entry], numbers: &mut Vec<u64>)
    requires { vec_len numbers.old + seen_line.ready_count entries.now ≤ vec_capacity numbers.old }
    ensures numbers { numbers.new.items ≡ numbers.old.items ++ map number_of (filter is_ready entries.now) }
    ensures capacity { vec_capacity numbers.new ≡ vec_capacity numbers.old }
{
    for entry in entries {
        append_number(entry, numbers);
    }
}

/// Removes the ready entries.
fn drop_ready(entries: &mut Vec<Entry>)
    ensures entries { entries.new.items ≡ filter (λ e. not (is_ready e)) entries.old.items }
    ensures size { IsNoLonger entries.old entries.new }
{
    entries.retain(|entry| !is_free(entry));
}

/// Removes the ready entries, and appends their publish numbers to `numbers`, which has capacity for them.
pub(crate) fn purge(entries: &mut Vec<Entry>, numbers: &mut Vec<u64>)
    requires { vec_len numbers.old + seen_line.ready_count entries.old.items ≤ vec_capacity numbers.old }
    ensures entries { entries.new.items ≡ filter (λ e. not (is_ready e)) entries.old.items }
    ensures numbers { numbers.new.items ≡ numbers.old.items ++ map number_of (filter is_ready entries.old.items) }
    // The frame.
    ensures size { IsNoLonger entries.old entries.new }
    ensures numbers_capacity { vec_capacity numbers.new ≡ vec_capacity numbers.old }
{
    append_numbers(entries, numbers);
    drop_ready(entries);
}

/// Marks each entry as one that a reload found here.
pub(crate) fn mark_reloaded(entries: &mut [Entry])
    ensures { entries.new ≡ map survived_now entries.old }
{
    for entry in entries.iter_mut() {
        mark_survived(entry);
    }
}
