//! The scenarios, as steps. Start with [`SCENARIOS`].

use crate::crowds::{Crowd, MANY, NEW};
use crate::passing::Pass;
use crate::reads::Sight;
use crate::scenes::Deed::{Goes, ReadsAll, Says};
use crate::steps::Step::{
    All, Client, Connect, Listens, Meet, Passes, Reads, Rest, Round, Times, Tries, Writes,
};
use crate::steps::{EMPTY, Scenario};
use crate::times::Time;
use crate::tries::Try;
use crate::writes::Room;

/// All scenarios, in the order in which they run.
pub(crate) const SCENARIOS: &[Scenario] = &[
    BETWEEN,
    FULL_READ,
    PART,
    END,
    ONE_AMONG_MANY,
    SOON,
    SILENT,
    OTHER,
    FULL,
    LISTENING,
    ROOM,
    BESIDE,
    STRANGERS,
    IN_TIME,
    FAREWELL,
    FULL_FAREWELL,
    REST,
    REST_THAT_ENDS,
    BEHIND,
    PIECES,
];

/// Bytes that come between a read that emptied a socket and a rest are not asked for in the round after that read, if a rest came just before it, and
/// the next rest reports them.
const BETWEEN: Scenario = Scenario {
    name: "bytes_between_a_read_and_a_rest_are_told_by_it",
    opening: &[Meet, Rest],
    steps: &[
        Client(0, Says(b"one")),
        Reads(0, Sight::Gives(3)),
        Client(0, Says(b"four")),
        Reads(
            0,
            Sight::Waits("an emptied socket is not asked in the next round"),
        ),
        Reads(0, Sight::GivesRested(4)),
    ],
    times: 3,
    ..EMPTY
};

/// A read that gets all that it asks for has not emptied its socket: the next round gets the rest.
const FULL_READ: Scenario = Scenario {
    name: "a_full_read_is_followed_by_another",
    steps: &[
        Meet,
        Client(0, Says(b"sixteen bytes and more")),
        Reads(0, Sight::Gives(16)),
        Reads(0, Sight::GivesNext(6, "the next round gets what was left")),
    ],
    ..EMPTY
};

/// What is claimed of a part of a content.
const FOLLOWED: &str = "the next part is read in the next round";

/// Four times as many bytes as a read asks for.
const PARTS: &[u8] = &[0; 64];

/// A part of a content, which filled the buffer, is followed by the next in each round, beside two clients that have more, too.
const PART: Scenario = Scenario {
    name: "a_part_of_a_content_is_followed_by_the_next",
    opening: &[Meet, Meet, Meet],
    steps: &[
        Client(0, Says(PARTS)),
        Client(1, Says(PARTS)),
        Client(2, Says(PARTS)),
        Writes(0, Room::IsWelcomed),
        Writes(1, Room::IsWelcomed),
        Writes(2, Room::IsWelcomed),
        Rest,
        All(Crowd::GivesMuch(FOLLOWED)),
        Writes(0, Room::IsInside),
        Reads(0, Sight::GivesNext(16, FOLLOWED)),
    ],
    tries: 2,
    ..EMPTY
};

/// The end of a client that writes and goes away at once is read, though its bytes were fewer than a read was offered.
const END: Scenario = Scenario {
    name: "an_end_behind_the_last_bytes_is_read",
    steps: &[
        Meet,
        Reads(0, Sight::Waits(NEW)),
        Client(0, Says(b"last")),
        Client(0, Goes),
        Reads(0, Sight::Gives(4)),
        Reads(0, Sight::Ends),
    ],
    ..EMPTY
};

/// A rest reports which of many silent sockets has something, and the next round gets it.
const ONE_AMONG_MANY: Scenario = Scenario {
    name: "a_rest_tells_of_one_among_many",
    steps: &[
        All(Crowd::Comes),
        All(Crowd::IsRead),
        Client(0, Says(b"one")),
        All(Crowd::HasOne),
        All(Crowd::IsRead),
        Client(MANY / 2, Says(b"one")),
        All(Crowd::HasOne),
        All(Crowd::IsRead),
        Client(MANY - 1, Says(b"one")),
        All(Crowd::HasOne),
    ],
    ..EMPTY
};

/// If no round rests, each socket that has something gives it soon.
const SOON: Scenario = Scenario {
    name: "sockets_are_read_soon_without_a_rest",
    steps: &[All(Crowd::Comes), All(Crowd::Speaks), All(Crowd::GivesSoon)],
    ..EMPTY
};

/// A socket that has nothing is skipped, and the next one, which an event named, is not. If no round rests, the silent one is asked in its turn, too.
const SILENT: Scenario = Scenario {
    name: "silent_sockets_are_passed_by_up_to_one_that_speaks",
    opening: &[Meet, Meet, Passes(Pass::Holds(0, 1))],
    steps: &[
        Client(1, Says(b"four")),
        Passes(Pass::SkipsSilent),
        Passes(Pass::StopsAtSilent),
    ],
    times: 3,
    ..EMPTY
};

/// If the slots hold sockets of other indices, none is passed by: each is asked.
const OTHER: Scenario = Scenario {
    name: "slots_that_hold_other_sockets_are_not_passed_by",
    opening: &[Meet, Meet, Passes(Pass::Holds(1, 0))],
    steps: &[
        Passes(Pass::SkipsNone),
        Reads(1, Sight::Anything),
        Reads(0, Sight::Anything),
    ],
    times: 3,
    ..EMPTY
};

/// Full sockets are skipped, up to the first for which an event reported room. A skipped one has its turn afterwards, in rounds without a rest.
const FULL: Scenario = Scenario {
    name: "full_sockets_are_passed_by_up_to_one_with_room",
    opening: &[Meet, Meet, Meet, Passes(Pass::Holds(0, 1))],
    steps: &[
        Writes(0, Room::IsFilled),
        Writes(1, Room::IsFilled),
        Passes(Pass::SkipsAll(2)),
        Client(1, ReadsAll),
        Passes(Pass::SkipsFull),
        Passes(Pass::StopsAtFull),
    ],
    ..EMPTY
};

/// Sockets listen at the address that is asked for, and at a port that the system chose only if port 0 is asked for.
const LISTENING: Scenario = Scenario {
    name: "sockets_listen_at_the_address_that_is_asked_for",
    steps: &[Listens],
    ..EMPTY
};

/// A socket that took less than it was offered takes nothing further by itself, and takes more once its client has read and a rest reported that.
const ROOM: Scenario = Scenario {
    name: "a_full_socket_takes_more_once_its_client_reads",
    steps: &[
        Meet,
        Writes(0, Room::IsFilled),
        Writes(0, Room::IsFull),
        Client(0, ReadsAll),
        Writes(0, Room::HasRoom),
    ],
    ..EMPTY
};

/// A socket that was full is written to once its client has read, though another speaks all the time: it waits for no turn of its own. On a busy
/// machine the system may report its room late one time.
const BESIDE: Scenario = Scenario {
    name: "a_socket_with_room_is_written_to_beside_one_that_speaks",
    opening: &[Meet, Meet],
    steps: &[
        Writes(0, Room::IsFilled),
        Client(0, ReadsAll),
        Tries(Try::IsWrittenToBesideASpeaker),
    ],
    times: 4,
    closing: &[Tries(Try::Succeeded(3, "it is written to at once each time but one"))],
    ..EMPTY
};

/// What is claimed of a socket that is not welcomed.
const STRANGER: &str = "a socket that is not welcomed is ended";

/// More bytes than a login has.
const WORDS: &[u8] = &[0; 200];

/// A socket that is not welcomed in its time is ended, whether its client wrote nothing or much. One that was welcomed is still read later, though its
/// client had written nothing.
const STRANGERS: Scenario = Scenario {
    name: "a_socket_that_is_not_welcomed_is_ended",
    is_timed: true,
    opening: &[Meet, Meet, Meet],
    steps: &[
        Client(1, Says(WORDS)),
        Reads(1, Sight::GivesAll(200)),
        Writes(0, Room::IsWelcomed),
        Reads(2, Sight::IsEnded(STRANGER)),
        Reads(1, Sight::IsEnded(STRANGER)),
        Reads(0, Sight::Waits("a socket that was welcomed is not ended")),
        Client(0, Says(b"more")),
        Reads(0, Sight::GivesAll(4)),
    ],
    ..EMPTY
};

/// A silent socket that is not welcomed is ended in the first round after its time: then it is not passed by.
const IN_TIME: Scenario = Scenario {
    name: "a_silent_socket_is_ended_in_the_round_after_its_time",
    is_timed: true,
    steps: &[
        Meet,
        Times(Time::Begins),
        Meet,
        Passes(Pass::Holds(0, 1)),
        Passes(Pass::EndsInTime),
    ],
    ..EMPTY
};

/// A socket for which `welcome` and then `farewell` was called is ended once its time, which begins with `farewell`, is over, and not before. A
/// socket that was only welcomed is not ended.
const FAREWELL: Scenario = Scenario {
    name: "a_socket_that_was_bidden_farewell_is_ended",
    is_timed: true,
    opening: &[
        Meet,
        Meet,
        Writes(0, Room::IsWelcomed),
        Writes(1, Room::IsWelcomed),
        Times(Time::Begins),
    ],
    steps: &[
        Reads(0, Sight::Waits("a socket that was welcomed is not ended")),
        Writes(0, Room::IsLeft),
        Reads(0, Sight::IsEnded("a socket is ended after `farewell`")),
        Times(Time::IsPast),
    ],
    closing: &[Reads(
        1,
        Sight::Waits("a socket without a call of `farewell` is not ended"),
    )],
    ..EMPTY
};

/// A socket that takes nothing is ended, too, once its time is over: a server writes to it, and no longer reads.
const FULL_FAREWELL: Scenario = Scenario {
    name: "a_full_socket_that_was_bidden_farewell_is_ended",
    is_timed: true,
    steps: &[
        Meet,
        Writes(0, Room::IsWelcomed),
        Writes(0, Room::IsFilled),
        Times(Time::Begins),
        Round,
        Writes(0, Room::IsLeft),
        Writes(0, Room::IsEnded),
        Times(Time::IsPast),
    ],
    ..EMPTY
};

/// A rest in which nothing comes waits, and ends by itself: at most ten times as many milliseconds as are promised.
const REST: Scenario = Scenario {
    name: "a_rest_in_which_nothing_comes_waits_and_ends",
    opening: &[Meet, Reads(0, Sight::IsHeard)],
    steps: &[Times(Time::Rests)],
    times: 4,
    closing: &[
        Times(Time::AtLeast(20, "it waits")),
        Times(Time::AtMost(1_000, "it ends by itself")),
    ],
    ..EMPTY
};

/// A rest ends at once if a client has written something: within half as many milliseconds as a rest without an event lasts.
const REST_THAT_ENDS: Scenario = Scenario {
    name: "a_rest_ends_once_a_client_writes",
    opening: &[Meet, Reads(0, Sight::IsHeard)],
    steps: &[
        Client(0, Says(b"one")),
        Times(Time::Rests),
        Reads(0, Sight::Gives(3)),
    ],
    times: 4,
    closing: &[Times(Time::AtMost(50, "it ends at once"))],
    ..EMPTY
};

/// A client that connects is accepted in the round after the rest that it ends: it waits for no turn of the listening socket. On a busy machine the
/// system may report one of four late.
const BEHIND: Scenario = Scenario {
    name: "a_client_is_accepted_behind_the_rest_that_it_ends",
    opening: &[Round],
    steps: &[Connect, Tries(Try::IsAcceptedAfterARest)],
    times: 4,
    closing: &[Tries(Try::Succeeded(3, "all but one are accepted at once"))],
    ..EMPTY
};

/// A piece is sent at once, though the piece before it is not acknowledged yet: in more than half of the exchanges, whatever else the machine does.
const PIECES: Scenario = Scenario {
    name: "small_pieces_are_sent_at_once",
    opening: &[Meet],
    steps: &[Tries(Try::IsAnsweredAtOnce)],
    times: 16,
    closing: &[Tries(Try::Succeeded(9, "no piece waits for another"))],
    ..EMPTY
};
