//! What an output needs room for.

ghost use Rattle.std.specs.Prelude.{◌≡◌, ◌==◌, if◌then◌else◌};
ghost use Rattle.outputs.specs.Storages.{room_of, storage_of, reserve_of, left_of};
ghost use Rattle.outputs.specs.declared.room.Room.TheVariants as room;

/// The most bytes that encode what one event sends.
const MOST_SENT: usize = 1_060_000;

/// The most bytes that encode what one event sends, if none of it has a content.
const MOST_REPLY: usize = 4096;

/// The most bytes that move from one storage to another.
pub(crate) const MOST_MOVED: usize = 65_536;

/// What an output needs room for before an event is performed.
#[derive(Clone, Copy, PartialEq, Eq, Debug, Drop)]
pub enum Room {
    /// For sends without a content, of at most 4,096 bytes.
    Reply,
    /// For all that one event may send, a content included: at most 1,060,000 bytes.
    Content,
}

impl Room {
    /// Returns the most bytes that such sends are encoded in.
    pub(crate) fn bytes(self) -> usize
        ensures { result ≡ room_of self }
    {
        match self {
            Room::Reply => MOST_REPLY,
            Room::Content => MOST_SENT,
        }
    }

    /// Returns the size in bytes of a new storage. It has room for the small answers of a round and for one more event, so that the bytes need not
    /// move.
    pub(crate) fn storage(self) -> usize
        ensures { result ≡ storage_of self }
    {
        match self {
            Room::Reply => MOST_MOVED,
            Room::Content => MOST_SENT + MOST_MOVED,
        }
    }

    /// Returns the number of storages of the reserve.
    pub(crate) fn reserve(self) -> usize
        ensures { result ≡ reserve_of self }
    {
        match self {
            Room::Reply => 16,
            Room::Content => 8,
        }
    }

    /// Returns the number of spare storages that stay when the reserve is freed.
    pub(crate) fn left(self) -> usize
        ensures { result ≡ left_of self }
    {
        match self {
            Room::Reply => 8,
            Room::Content => 2,
        }
    }

    /// Returns the kind of storage to which `waiting` bytes move: a large one if there are any, otherwise one of this kind.
    pub(crate) fn for_bytes(self, waiting: usize) -> Room
        ensures { result ≡ (if waiting == 0 then self else room.Content) }
    {
        if waiting == 0 { self } else { Room::Content }
    }
}
