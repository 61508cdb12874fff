//! Whose consumers leave their lines.

ghost use Rattle.std.specs.Prelude.{◌≡◌, ◌<◌, ◌≤◌, ◌*◌, ℕ, length};
ghost use Rattle.std.specs.Option.{option_copied};
ghost use Rattle.marks.specs.Sets.{bit_of};
ghost use Rattle.channels.specs.RunningConnections.{channel_in};
ghost use Rattle.broker.specs.declared.rounds.leaving.Gone.TheVariants.{Nobody};
ghost use Rattle.broker.specs.Leaving.{consumer_at, leavers_of, AddsLeaver, AreAdded, FindsLeavers, IsConsumerIn};

use crate::rounds::finding::is_same;
use channels::{Channel, RunningConnection, Seat};
use commands::{Ends, Pick};
use marks::{Flat, IndexSet, Over};
use model::ChannelId;
use waiting_lines::Tests;

/// A set of indices, with a bit for each.
pub(crate) type PlaceMarks = Over<Flat>;

/// Whose consumers leave: one consumer, or those of a channel or of a connection.
#[derive(Clone, Copy, Drop)]
pub(crate) enum Leavers {
    Nobody,
    Consumer(Pick),
    Channel(ChannelId),
    Connection(u64),
}

impl Tests<Pick> for Leavers {
    ghost use Rattle.broker.specs.Leaving.{remains};

    ghost passes = { remains };

    fn passes(&self, item: &Pick) -> bool {
        match self {
            Leavers::Nobody => true,
            Leavers::Consumer(pick) => !is_same(*item, *pick),
            Leavers::Channel(id) => {
                !(item.connection == id.connection && item.channel == id.number)
            }
            Leavers::Connection(connection) => item.connection != *connection,
        }
    }
}

/// Returns whose consumers leave by an event of the channel `id` that ends `ends`.
pub(crate) fn who_leaves(id: ChannelId, ends: &Ends) -> Leavers
    ensures { result ≡ leavers_of id.connection id.number ends.now }
{
    match ends {
        Ends::Nothing => Leavers::Nobody,
        Ends::Consumer(seat) => Leavers::Consumer(pick_at(id, *seat)),
        Ends::Channel(_) => Leavers::Channel(id),
        Ends::Connection(_) => Leavers::Connection(id.connection),
    }
}

/// The consumers that leave.
#[derive(Clone, Copy, Drop)]
pub(crate) enum Gone {
    Nobody,
    /// One, with a guess of its index in its line.
    One(Pick, Seat),
    Several,
}

/// Returns the consumer of the channel `id` that waits at `seat`.
fn pick_at(id: ChannelId, seat: Seat) -> Pick
    ensures { result ≡ consumer_at id.connection id.number seat.number }
{
    Pick {
        connection: id.connection,
        channel: id.number,
        number: seat.number,
    }
}

/// Adds `queue` to the set if it is below `count`.
fn name(named: &mut PlaceMarks, queue: usize, count: usize)
    requires { count ≤ length named.old * 64 }
    ensures size { length named.new ≡ length named.old }
    ensures there { queue < count → bit_of named.new queue ≡ 1 }
    ensures more { (k : ℕ) → bit_of named.old k ≡ 1 → bit_of named.new k ≡ 1 }
{
    if queue < count {
        named.set(queue);
    }
}

impl Gone {
    /// Adds the consumer `pick`, which waits at `seat`. If several leave, the indices of their queues below `count` are added to `named`.
    fn and(self, pick: Pick, seat: Seat, count: usize, named: &mut PlaceMarks) -> Gone
        requires { count ≤ length named.old * 64 }
        ensures { AddsLeaver pick seat.queue count self named.old result named.new }
    {
        match self {
            Gone::Nobody => Gone::One(pick, seat),
            Gone::One(_, first) => {
                name(named, first.queue, count);
                name(named, seat.queue, count);
                Gone::Several
            }
            Gone::Several => {
                name(named, seat.queue, count);
                Gone::Several
            }
        }
    }

    /// Adds the consumers of `channel`, which is the channel `id`, if there is one, as [`Gone::and`] does.
    fn and_all(
        self,
        id: ChannelId,
        channel: Option<&Channel>,
        count: usize,
        named: &mut PlaceMarks,
    ) -> Gone
        requires { count ≤ length named.old * 64 }
        ensures { AreAdded id.connection (λ h k. (h ≡ id.number) × IsConsumerIn (option_copied channel.entry) k) count self named.old result named.new }
    {
        let mut gone = self;
        let Some(channel) = channel else {
            return gone;
        };
        for index in 0..channel.consumer_count() {
            let seat = channel.seat_at(index);
            gone = gone.and(pick_at(id, seat), seat, count, named);
        }
        gone
    }
}

/// Returns the consumers of all channels of `running`, which is the connection `connection`. If they are several, the indices of their queues below
/// `count` are added to `named`.
fn gone_with(
    connection: u64,
    running: &RunningConnection,
    count: usize,
    named: &mut PlaceMarks,
) -> Gone
    requires { count ≤ length named.old * 64 }
    ensures { AreAdded connection (λ h k. IsConsumerIn (channel_in running.now h) k) count Nobody named.old result named.new }
{
    let mut gone = Gone::Nobody;
    for place in 0..running.slots() {
        let number = place as u16;
        let id = ChannelId { connection, number };
        gone = gone.and_all(id, running.channel(number), count, named);
    }
    gone
}

/// Returns the consumers that leave by an event of the channel `id` that ends `ends`. If they are several, the indices of their queues below `count` are
/// added to `named`.
pub(crate) fn find_gone(id: ChannelId, ends: &Ends, count: usize, named: &mut PlaceMarks) -> Gone
    requires { count ≤ length named.old * 64 }
    ensures { FindsLeavers id.connection id.number ends.now count result named.old named.new }
{
    match ends {
        Ends::Consumer(seat) => Gone::One(pick_at(id, *seat), *seat),
        Ends::Channel(channel) => Gone::Nobody.and_all(id, channel.as_ref(), count, named),
        Ends::Connection(Some(running)) => gone_with(id.connection, running, count, named),
        _ => Gone::Nobody,
    }
}
