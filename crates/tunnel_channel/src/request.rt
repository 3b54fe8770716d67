//! The client's request in its channel.

ghost use Rattle.std.specs.Prelude.{◌≡◌};
ghost use Rattle.line_model.specs.ClientEnd.{is_free, is_given_up, repeat_due, request_end};
ghost use Rattle.tunnel_channel.specs.Request.{outstanding};

use crate::wait::ACK_WAIT_MS;
use knx_model::{Datagram, end_of, has_passed};

/// The client's request in its channel, of which one is outstanding at a time.
#[derive(Drop)]
pub enum Request {
    /// Each one is acknowledged.
    Free,
    /// This datagram was sent.
    Once { datagram: Datagram, since: u64 },
    /// It was sent once more.
    Again { since: u64 },
}

impl Request {
    /// Whether each one is acknowledged.
    pub fn is_free(&self) -> bool
        ensures { result ≡ is_free (outstanding self.now) }
    {
        matches!(self, Request::Free)
    }

    /// Whether it was sent twice and the wait for its acknowledgement has passed again.
    pub fn is_given_up(&self, now: u64) -> bool
        ensures { result ≡ is_given_up (outstanding self.now) now }
    {
        match self {
            Request::Again { since } => has_passed(ACK_WAIT_MS, *since, now),
            Request::Free | Request::Once { .. } => false,
        }
    }

    /// Its datagram, where it is to be sent once more.
    pub fn repeat_due(&self, now: u64) -> Option<Datagram>
        ensures { result ≡ repeat_due (outstanding self.now) now }
    {
        match self {
            Request::Once { datagram, since } if has_passed(ACK_WAIT_MS, *since, now) => {
                Some(datagram.copied())
            }
            Request::Free | Request::Once { .. } | Request::Again { .. } => None,
        }
    }

    /// When the wait for its acknowledgement has passed.
    pub fn deadline(&self) -> Option<u64>
        ensures { result ≡ request_end (outstanding self.now) }
    {
        match self {
            Request::Once { since, .. } | Request::Again { since } => {
                Some(end_of(ACK_WAIT_MS, *since))
            }
            Request::Free => None,
        }
    }
}
