//! Who wakes consumers that may take more messages.

ghost use Rattle.std.specs.Prelude.{◌≡◌, ℕ, vec_len, vec_capacity};
ghost use Rattle.std.specs.List.{All};
ghost use Rattle.channels.specs.CountedConsumers.{consumers_of, counts_of, IsWoken};

use crate::consumers::{CountedConsumer, Seat, may_hold};
use crate::seats::seat_of;

/// Wakes consumers in the order of their queue.
pub trait Wakes {
    ghost use Rattle.std.specs.Prelude.{ℕ};

    /// The consumer with this number on this channel of this connection is awake in the order of the queue at this index, if it is there.
    ghost is_awake: { Self → ℕ → ℕ → ℕ → ℕ → Type 0 };

    /// Nothing changed but that some consumers were woken.
    ghost goes_on: { Self → Self → Type 0 };

    /// Wakes a consumer, and returns the index at which it was found, as the guess for the next time. Never allocates.
    fn wake(&mut self, connection: u64, channel: u16, seat: Seat) -> usize
        ensures awake { is_awake self.new seat.queue connection channel seat.number }
        ensures stay { (q c h n : ℕ) → is_awake self.old q c h n → is_awake self.new q c h n }
        ensures on { (start : Self) → goes_on start self.old → goes_on start self.new };
}

/// Wakes a consumer if it may be given one more message, and remembers where it was found.
fn wake_one<W: Wakes>(
    counted: &mut CountedConsumer,
    connection: u64,
    channel: u16,
    limit: u16,
    given: usize,
    waker: &mut W,
)
    ensures consumer { counted.new.consumer ≡ counted.old.consumer }
    ensures held { counted.new.held ≡ counted.old.held }
    ensures awake { IsWoken limit given (λ q. W.is_awake waker.new q connection channel) counted.old }
    ensures stay { (q c h n : ℕ) → W.is_awake waker.old q c h n → W.is_awake waker.new q c h n }
    ensures on { (start : W) → W.goes_on start waker.old → W.goes_on start waker.new }
{
    if !may_hold(counted, limit, given) {
        return;
    }
    counted.place = waker.wake(connection, channel, seat_of(counted));
}

/// Wakes each consumer that may be given one more message, and remembers where it was found.
fn wake_each<W: Wakes>(
    consumers: &mut [CountedConsumer],
    connection: u64,
    channel: u16,
    limit: u16,
    given: usize,
    waker: &mut W,
)
    ensures consumers { consumers_of consumers.new ≡ consumers_of consumers.old }
    ensures held { counts_of consumers.new ≡ counts_of consumers.old }
    ensures awake { All (IsWoken limit given (λ q. W.is_awake waker.new q connection channel)) consumers.old }
    ensures stay { (q c h n : ℕ) → W.is_awake waker.old q c h n → W.is_awake waker.new q c h n }
    ensures on { (start : W) → W.goes_on start waker.old → W.goes_on start waker.new }
{
    for counted in consumers.iter_mut() {
        wake_one(counted, connection, channel, limit, given, waker);
    }
}

/// Wakes each consumer that may be given one more message: `limit` is the channel's prefetch, and all its consumers together have `given`
/// unacknowledged messages.
pub(crate) fn wake_all<W: Wakes>(
    consumers: &mut Vec<CountedConsumer>,
    connection: u64,
    channel: u16,
    limit: u16,
    given: usize,
    waker: &mut W,
)
    ensures consumers { consumers_of consumers.new.items ≡ consumers_of consumers.old.items }
    ensures held { counts_of consumers.new.items ≡ counts_of consumers.old.items }
    ensures len { vec_len consumers.new ≡ vec_len consumers.old }
    ensures capacity { vec_capacity consumers.new ≡ vec_capacity consumers.old }
    ensures awake { All (IsWoken limit given (λ q. W.is_awake waker.new q connection channel)) consumers.old.items }
    ensures stay { (q c h n : ℕ) → W.is_awake waker.old q c h n → W.is_awake waker.new q c h n }
    ensures on { (start : W) → W.goes_on start waker.old → W.goes_on start waker.new }
{
    wake_each(consumers, connection, channel, limit, given, waker);
}
