//! How a run closes.

ghost use Rattle.std.specs.Prelude.{◌≡◌, ◌&&◌};
ghost use Rattle.line_model.specs.ClientView.{ClientChannel};
ghost use Rattle.line_model.specs.Closing.{Leaving, Listening, has_waited, is_open as has_channel, is_over, is_listening};
ghost use Rattle.hub_work.specs.Closes.{closing_of, after_datagram};
ghost use Rattle.hub_work.specs.Polls.{closing_end};

/// How long it listens after the last datagram, in milliseconds.
const LISTENING_MS: u64 = 1_000;
/// How long the answer to the disconnect request is awaited, in milliseconds.
const LEAVING_MS: u64 = 10_000;
/// How many datagrams end either wait.
const MOST_DATAGRAMS: u32 = 64;

/// How far the closing is: how long, and how many datagrams came.
#[derive(Clone, Copy, Drop)]
pub enum Closing {
    /// Nothing was got since this time.
    Listening { since: u64, came: u32 },
    /// It asked to end the channel at this time.
    Leaving { since: u64, came: u32 },
}

impl Closing {
    /// It begins.
    pub(crate) fn begin(now: u64) -> Closing
        ensures { closing_of result ≡ Listening now 0 }
    {
        Closing::Listening {
            since: now,
            came: 0,
        }
    }

    /// After a datagram was got.
    pub(crate) fn got(self, now: u64) -> Closing
        ensures { closing_of result ≡ after_datagram now (closing_of self) }
    {
        match self {
            Closing::Listening { came, .. } => Closing::Listening {
                since: now,
                came: came.saturating_add(1),
            },
            Closing::Leaving { since, came } => Closing::Leaving {
                since,
                came: came.saturating_add(1),
            },
        }
    }

    /// After a disconnect request was sent.
    pub(crate) fn asked(now: u64) -> Closing
        ensures { closing_of result ≡ Leaving now 0 }
    {
        Closing::Leaving {
            since: now,
            came: 0,
        }
    }

    /// Whether it has waited enough.
    fn has_waited(self, now: u64) -> bool
        ensures { result ≡ has_waited (closing_of self) now }
    {
        match self {
            Closing::Listening { since, came } => {
                now.saturating_sub(since) >= LISTENING_MS || came >= MOST_DATAGRAMS
            }
            Closing::Leaving { since, came } => {
                now.saturating_sub(since) >= LEAVING_MS || came >= MOST_DATAGRAMS
            }
        }
    }

    /// Whether it is over, where a channel is open or not.
    pub fn is_over(self, is_open: bool, now: u64) -> bool
        ensures { (channel : ClientChannel) → has_channel channel ≡ is_open → result ≡ is_over channel (closing_of self) now }
    {
        match self {
            Closing::Listening { .. } => self.has_waited(now) && !is_open,
            Closing::Leaving { .. } => self.has_waited(now) || !is_open,
        }
    }

    /// Whether the channel is to be asked to end now.
    pub fn asks(self, now: u64) -> bool
        ensures { result ≡ (is_listening (closing_of self) && has_waited (closing_of self) now) }
    {
        match self {
            Closing::Listening { .. } => self.has_waited(now),
            Closing::Leaving { .. } => false,
        }
    }

    /// When its wait has passed.
    pub(crate) fn deadline(self) -> u64
        ensures { result ≡ closing_end (closing_of self) }
    {
        match self {
            Closing::Listening { since, .. } => since.saturating_add(LISTENING_MS),
            Closing::Leaving { since, .. } => since.saturating_add(LEAVING_MS),
        }
    }
}
