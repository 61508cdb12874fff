//! Where consumers are among those of their queues.

ghost use Rattle.std.specs.Prelude.{◌≡◌, ◌<◌, find, option_map, length, vec_len, vec_capacity};
ghost use Rattle.channels.specs.CountedConsumers.{consumers_of, counts_of, has_name, is_named};
ghost use Rattle.channels.specs.Seats.{IsSeatOf, IsSeatAt, ReturnsSeat};

use crate::consumers::{CountedConsumer, Seat, place_of_consumer};

/// Returns the seat of a consumer.
pub(crate) fn seat_of(counted: &CountedConsumer) -> Seat
    ensures { IsSeatOf counted.now.consumer result }
{
    Seat {
        number: counted.consumer.number,
        queue: counted.consumer.queue,
        place: counted.place,
    }
}

/// Returns the first consumer with this tag, if one has it.
fn first_tagged<'a>(consumers: &'a [CountedConsumer], tag: &[u8]) -> Option<&'a CountedConsumer>
    ensures { option_map (λ s. s.now) result ≡ find (has_name tag.now) consumers.now }
{
    consumers.iter().find(|s| s.consumer.tag.as_bytes() == tag)
}

/// Returns the seat of the first consumer with this tag, if one has it.
pub(crate) fn seat_tagged(consumers: &[CountedConsumer], tag: &[u8]) -> Option<Seat>
    ensures { ReturnsSeat (find (is_named tag.now) (consumers_of consumers.now)) result }
{
    match first_tagged(consumers, tag) {
        Some(counted) => Some(seat_of(counted)),
        None => None,
    }
}

/// Returns the seat of the consumer at this index.
pub(crate) fn seat_at(consumers: &[CountedConsumer], index: usize) -> Seat
    requires { index < length (consumers_of consumers.now) }
    ensures { IsSeatAt (consumers_of consumers.now) index result }
{
    seat_of(&consumers[index])
}

/// Remembers `place` for the consumer with this number, if it exists.
pub(crate) fn remember(consumers: &mut Vec<CountedConsumer>, number: u64, place: usize)
    ensures consumers { consumers_of consumers.new.items ≡ consumers_of consumers.old.items }
    ensures held { counts_of consumers.new.items ≡ counts_of consumers.old.items }
    ensures len { vec_len consumers.new ≡ vec_len consumers.old }
    ensures capacity { vec_capacity consumers.new ≡ vec_capacity consumers.old }
{
    set_place(consumers, number, place);
}

/// Sets the place of the consumer with this number, if it exists.
fn set_place(consumers: &mut [CountedConsumer], number: u64, place: usize)
    ensures consumers { consumers_of consumers.new ≡ consumers_of consumers.old }
    ensures held { counts_of consumers.new ≡ counts_of consumers.old }
{
    if let Some(index) = place_of_consumer(consumers, number) {
        consumers[index].place = place;
    }
}
