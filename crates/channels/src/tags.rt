//! Finds the deliveries that a tag settles.

ghost use Rattle.std.specs.Prelude.{◌≡◌, ◌+◌, ◌<◌, ◌≤◌, ◌++◌, ℕ, IfSome, IfNone, option_map, true, false};
ghost use Rattle.std.specs.Prelude.{length, take, drop, set, get_or, count_by, vec_len, vec_capacity};
ghost use Rattle.std.specs.List.{list_any};
ghost use Rattle.model.specs.Settling.{has_tag, settled, kept, Rises};
ghost use Rattle.channels.specs.Outstanding.{tag_of, given_tag, marked, IsTagAt, AreInOrder};
ghost use Rattle.channels.specs.Spans.{settled_by, ReturnsSpan};
ghost use Rattle.model.specs.Placed.{is_waiting, waiting};

use crate::spans::Span;
use model::Delivery;

/// Returns the tag under which a delivery was given out, even if it was settled.
fn given_tag(one: &Delivery) -> u64
    ensures { result ≡ given_tag one.now }
{
    if one.tag == 0 { one.arrival } else { one.tag }
}

/// Returns how many deliveries of `given` were given out under a tag below `tag`, by binary search, since tags ascend.
fn lower(given: &[Delivery], tag: u64) -> usize
    requires { Rises given_tag given.now }
    ensures within { result ≤ length given.now }
    ensures below { (k : ℕ) (d : Delivery) → k < result → given_tag (get_or given.now k d) < tag }
    ensures above { (k : ℕ) (d : Delivery) → result ≤ k → k < length given.now → tag ≤ given_tag (get_or given.now k d) }
{
    given.partition_point(|one| given_tag(one) < tag)
}

/// Returns whether the delivery at index `place` has the tag `tag` and is unacknowledged.
fn is_at(given: &[Delivery], place: usize, tag: u64) -> bool
    ensures here { result ≡ true → IsTagAt given.now place tag }
    ensures elsewhere { result ≡ false → IsTagAt given.now place tag → ⊥ }
{
    tag != 0 && place < given.len() && given[place].tag == tag
}

/// Returns the index of the unacknowledged delivery with the tag `tag`, by binary search.
fn search(given: &[Delivery], tag: u64) -> Option<usize>
    requires { Rises given_tag given.now }
    ensures there { IfSome result (λ i. IsTagAt given.now i tag) }
    ensures none { IfNone result (list_any (has_tag tag_of tag) (waiting given.now) ≡ false) }
{
    let i = lower(given, tag);
    if is_at(given, i, tag) {
        return Some(i);
    }
    None
}

/// Returns the index of the unacknowledged delivery with the tag `tag`, if there is one. Looks at index `near` first.
fn place_of_tag(given: &[Delivery], tag: u64, near: usize) -> Option<usize>
    requires { Rises given_tag given.now }
    ensures there { IfSome result (λ i. IsTagAt given.now i tag) }
    ensures none { IfNone result (list_any (has_tag tag_of tag) (waiting given.now) ≡ false) }
{
    if is_at(given, near, tag) {
        return Some(near);
    }
    search(given, tag)
}

/// Returns the span of what `tag` settles, or `None` if the tag is refused. Looks at the front first.
pub(crate) fn span_of(given: &[Delivery], tag: u64, multiple: bool) -> Option<Span>
    requires { Rises given_tag given.now }
    ensures { ReturnsSpan tag multiple (waiting given.now) result }
{
    if multiple && tag == 0 {
        return Some(Span {
            tag,
            multiple,
            place: 0,
        });
    }
    match place_of_tag(given, tag, 0) {
        Some(place) => Some(Span {
            tag,
            multiple,
            place,
        }),
        None => None,
    }
}

/// Returns the range of indices that `span` settles, or `None` if its tag is refused.
fn run_of(given: &[Delivery], span: Span) -> Option<(usize, usize)>
    requires { Rises given_tag given.now }
    // The range, and what is in it.
    ensures within { IfSome result (λ r. (r.0 ≤ r.1) × (r.1 ≤ length given.now)) }
    ensures run { option_map (λ r. waiting (drop r.0 (take r.1 given.now))) result ≡ settled tag_of span.tag span.multiple (waiting given.now) }
    ensures next { IfSome result (λ r. (r.0 ≡ 0 → ⊥) → r.1 ≡ r.0 + 1) }
    ensures there { IfSome result (λ r. (r.0 ≡ 0 → ⊥) → IsTagAt given.now r.0 span.tag) }
    // What is outside of the range; without a range, all deliveries stay.
    ensures rest { IfSome result (λ r. waiting (take r.0 given.now) ++ waiting (drop r.1 given.now) ≡ kept tag_of span.tag span.multiple (waiting given.now)) }
    ensures none { IfNone result (kept tag_of span.tag span.multiple (waiting given.now) ≡ waiting given.now) }
{
    if span.multiple && span.tag == 0 {
        return Some((0, given.len()));
    }
    match place_of_tag(given, span.tag, span.place) {
        None => None,
        Some(i) => {
            if span.multiple {
                Some((0, i + 1))
            } else {
                Some((i, i + 1))
            }
        }
    }
}

/// Returns the deliveries that `span` settles; entries of deliveries that were settled before may be among them. Empty if the tag is refused.
pub(crate) fn settled_of(given: &[Delivery], span: Span) -> &[Delivery]
    requires { Rises given_tag given.now }
    ensures { waiting result.now ≡ settled_by span (waiting given.now) }
{
    match run_of(given, span) {
        Some((from, to)) => &given[..to][from..],
        None => &[],
    }
}

/// Returns how many deliveries of `given` are unacknowledged.
pub(crate) fn count_waiting(given: &[Delivery]) -> usize
    ensures { result ≡ count_by is_waiting given.now }
{
    given.iter().filter(|one| one.tag != 0).count()
}

/// Returns the entry of `one` once it is settled: its tag is 0, and its `arrival` is the tag that it had.
fn marked(one: &Delivery) -> Delivery
    ensures { result ≡ marked one.now }
{
    Delivery {
        tag: 0,
        queue: one.queue,
        arrival: one.tag,
        by: one.by,
    }
}

/// Marks the entry at index `place` as settled.
fn mark_in(items: &mut [Delivery], place: usize)
    requires { place < length items.old }
    ensures { (d : Delivery) → items.new ≡ set items.old place (marked (get_or items.old place d)) }
{
    let settled = marked(&items[place]);
    items[place] = settled;
}

/// Marks the entry at index `place` as settled.
fn mark(items: &mut Vec<Delivery>, place: usize)
    requires { place < vec_len items.old }
    ensures items { (d : Delivery) → items.new.items ≡ set items.old.items place (marked (get_or items.old.items place d)) }
    ensures len { vec_len items.new ≡ vec_len items.old }
    ensures capacity { vec_capacity items.new ≡ vec_capacity items.old }
{
    mark_in(items, place);
}

/// Returns the entries from index `start` on.
pub(crate) fn behind(items: &Vec<Delivery>, start: usize) -> &[Delivery]
    requires { start ≤ vec_len items.now }
    ensures { result.now ≡ drop start items.now.items }
{
    &items[start..]
}

/// Removes the deliveries that `span` settles among the entries from index `start` on: moves the start past them, or marks the one entry. Returns
/// the new start.
pub(crate) fn forget_in(items: &mut Vec<Delivery>, start: usize, span: Span) -> usize
    requires start { start ≤ vec_len items.old }
    requires rises { Rises given_tag (drop start items.old.items) }
    // The entries that are left, and their order.
    ensures start { result ≤ vec_len items.new }
    ensures order { (last : ℕ) → AreInOrder last (drop start items.old.items) → AreInOrder last (drop result items.new.items) }
    ensures kept { waiting (drop result items.new.items) ≡ kept tag_of span.tag span.multiple (waiting (drop start items.old.items)) }
    // Nothing is moved.
    ensures len { vec_len items.new ≡ vec_len items.old }
    ensures capacity { vec_capacity items.new ≡ vec_capacity items.old }
{
    match run_of(behind(items, start), span) {
        None => start,
        Some((from, to)) => {
            if from == 0 {
                start + to
            } else {
                mark(items, start + from);
                start
            }
        }
    }
}

/// Moves the unacknowledged entries from index `start` on to the front, and removes all others.
fn close_up(items: &mut Vec<Delivery>, start: usize)
    requires { start ≤ vec_len items.old }
    ensures items { items.new.items ≡ waiting (drop start items.old.items) }
    ensures capacity { vec_capacity items.new ≡ vec_capacity items.old }
{
    drop_front(items, start);
    items.retain(|one| one.tag != 0);
}

/// Removes the first `n` entries.
fn drop_front(items: &mut Vec<Delivery>, n: usize)
    requires { n ≤ vec_len items.old }
    ensures items { items.new.items ≡ drop n items.old.items }
    ensures len { vec_len items.new + n ≡ vec_len items.old }
    ensures capacity { vec_capacity items.new ≡ vec_capacity items.old }
{
    items.drain(..n);
}

/// Compacts the list if `is_wanted`. Returns the new start.
pub(crate) fn close_if(items: &mut Vec<Delivery>, start: usize, is_wanted: bool) -> usize
    requires start { start ≤ vec_len items.old }
    // The entries that are left, and their order.
    ensures start { result ≤ vec_len items.new }
    ensures order { (last : ℕ) → AreInOrder last (drop start items.old.items) → AreInOrder last (drop result items.new.items) }
    ensures waiting { waiting (drop result items.new.items) ≡ waiting (drop start items.old.items) }
    // The length after the call.
    ensures fewer { vec_len items.new ≤ vec_len items.old }
    ensures closed { is_wanted ≡ true → vec_len items.new ≡ length (waiting (drop start items.old.items)) }
    ensures capacity { vec_capacity items.new ≡ vec_capacity items.old }
{
    if !is_wanted {
        return start;
    }
    close_up(items, start);
    0
}

/// Makes spare capacity for one entry by compacting the list, if it has none. Returns the new start.
pub(crate) fn make_place(items: &mut Vec<Delivery>, start: usize) -> usize
    requires start { start ≤ vec_len items.old }
    requires room { length (waiting (drop start items.old.items)) < vec_capacity items.old }
    // The entries that are left, and their order.
    ensures start { result ≤ vec_len items.new }
    ensures order { (last : ℕ) → AreInOrder last (drop start items.old.items) → AreInOrder last (drop result items.new.items) }
    ensures waiting { waiting (drop result items.new.items) ≡ waiting (drop start items.old.items) }
    // The length after the call: there is a free slot.
    ensures fewer { vec_len items.new ≤ vec_len items.old }
    ensures place { vec_len items.new < vec_capacity items.new }
    ensures capacity { vec_capacity items.new ≡ vec_capacity items.old }
{
    if items.len() < items.capacity() {
        return start;
    }
    close_if(items, start, true)
}
