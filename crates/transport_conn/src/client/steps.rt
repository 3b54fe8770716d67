//! The state of a client's end after each of its answers. What it answers is decided apart, in `took`: so the contract of a call is one
//! equation for the answer and one for the state.

ghost use Rattle.std.specs.Prelude.{◌≡◌, Bool};
ghost use Rattle.knx_model.specs.ClientConnection.{after_confirmed, client_after, client_stayed, client_answered, client_acknowledged, client_expired, after_overdue, client_repeated};
ghost use Rattle.transport_conn.specs.Ends.{client_end, IsntAsked, MayAskAgain};

use super::State;
use knx_model::{ClientExpired, ClientTook};

impl State {
    /// After a frame was confirmed.
    #[tactic(auto, unfolding(knx_model::specs::ClientConnection::after_confirmed))]
    pub fn confirmed(self, now: u64) -> State
        requires { IsntAsked (client_end self) }
        ensures { (error : Bool) → client_end result ≡ after_confirmed (client_end self) error now }
    {
        match self {
            State::Asking(session, question) => State::Asking(session, question.confirmed(now)),
            state => state,
        }
    }

    /// After this answer to a frame.
    #[tactic(auto, unfolding(knx_model::specs::ClientConnection::client_after))]
    pub fn after(self, now: u64, took: &ClientTook) -> State
        ensures { client_end result ≡ client_after (client_end self) now took.now }
    {
        match took {
            ClientTook::Dropped => self,
            ClientTook::Acked => self.acknowledged(now),
            ClientTook::Answer { .. } => self.advanced(now),
            ClientTook::Again { .. } | ClientTook::Nak(_) => self.at_time(now),
            ClientTook::Closed { .. } => State::Ended,
        }
    }

    /// After a frame was taken that brought nothing new, or a T_ACK or T_NAK was sent.
    pub fn at_time(self, now: u64) -> State
        ensures { client_end result ≡ client_stayed (client_end self) now }
    {
        match self {
            State::Up(session) => State::Up(session.at_time(now)),
            State::Asking(session, question) => State::Asking(session.at_time(now), question),
            State::Awaiting(session) => State::Awaiting(session.at_time(now)),
            state => state,
        }
    }

    /// After the device's next service came.
    fn advanced(self, now: u64) -> State
        ensures { client_end result ≡ client_answered (client_end self) now }
    {
        match self {
            State::Up(session) | State::Awaiting(session) => State::Up(session.advanced(now)),
            State::Asking(session, question) => {
                State::Asking(session.advanced(now), question.has_come())
            }
            state => state,
        }
    }

    /// After the outstanding service was acknowledged.
    fn acknowledged(self, now: u64) -> State
        ensures { client_end result ≡ client_acknowledged (client_end self) now }
    {
        match self {
            State::Asking(session, question) if question.awaits() => {
                State::Awaiting(session.acknowledged(now))
            }
            State::Asking(session, _) => State::Up(session.acknowledged(now)),
            state => state,
        }
    }

    /// After this became due.
    #[tactic(auto, unfolding(knx_model::specs::ClientConnection::client_expired, knx_model::specs::ClientConnection::after_overdue))]
    pub fn after_expiry(self, now: u64, expired: &ClientExpired) -> State
        requires { expired.now ≡ client_expired (client_end self) now }
        ensures { client_end result ≡ after_overdue (client_end self) now expired.now }
    {
        match expired {
            ClientExpired::Nothing => self,
            ClientExpired::Repeat(_) => self.repeated(now),
            ClientExpired::Silent { .. } => State::Ended,
        }
    }

    fn repeated(self, now: u64) -> State
        requires { MayAskAgain (client_end self) }
        ensures { client_end result ≡ client_repeated (client_end self) now }
    {
        match self {
            State::Asking(session, question) => {
                State::Asking(session.at_time(now), question.again())
            }
            state => state,
        }
    }
}
