//! What is known of a socket.

ghost use Rattle.std.specs.Prelude.{◌≡◌, true, false};
ghost use Rattle.turns.specs.Voices.{is_asked, is_greedy, is_stranger, is_content, is_recent, is_silent};

/// Whether a socket may have something to read.
#[derive(Clone, Copy, Drop)]
pub enum Voice {
    /// There is no socket.
    Gone,
    /// It may have something, and is asked in each round: it was just accepted, or an event named it.
    Speaking,
    /// Its peer has ended it, or its time is over. It is asked in each round until the end is read, since no later event reports that again.
    Ending,
    /// Its last read filled the buffer with commands, so it may have more.
    Greedy,
    /// Its last read filled the buffer, and its client has not logged in.
    Stranger,
    /// Its last read filled the buffer with a part of one content.
    Content,
    /// It has nothing, and gave bytes in the last 256 rounds.
    Recent,
    /// It has nothing, and gave no bytes lately.
    Silent,
}

impl Voice {
    /// Returns whether the socket is asked in each round.
    pub(crate) fn is_asked(self) -> bool
        ensures { result ≡ is_asked self }
    {
        matches!(self, Voice::Speaking | Voice::Ending)
    }

    /// Returns whether it is [`Voice::Greedy`].
    pub(crate) fn is_greedy(self) -> bool
        ensures { result ≡ is_greedy self }
    {
        matches!(self, Voice::Greedy)
    }

    /// Returns whether it is [`Voice::Stranger`].
    pub(crate) fn is_stranger(self) -> bool
        ensures { result ≡ is_stranger self }
    {
        matches!(self, Voice::Stranger)
    }

    /// Returns whether it is [`Voice::Content`].
    pub(crate) fn is_content(self) -> bool
        ensures { result ≡ is_content self }
    {
        matches!(self, Voice::Content)
    }

    /// Returns whether it is [`Voice::Recent`].
    pub(crate) fn is_recent(self) -> bool
        ensures { result ≡ is_recent self }
    {
        matches!(self, Voice::Recent)
    }

    /// Returns whether it is [`Voice::Silent`].
    pub(crate) fn is_silent(self) -> bool
        ensures { result ≡ is_silent self }
    {
        matches!(self, Voice::Silent)
    }
}
