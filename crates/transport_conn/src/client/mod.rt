//! The client's end of a numbered connection (ISO/IEC 14543-3-2, transport layer).
//!
//! ```text
//!               confirmed                 send
//!  +-------+  without error  +----+ ---------------> +--------+ --+ again 3,000 ms after its
//!  | Asked | --------------> | Up |                  | Asking |   | confirmation, three times
//!  +-------+                 +----+ <--------------- +--------+ <-+
//!      |                        ^    its T_ACK, where    ^  |
//!      | confirmed              |    no answer is to     |  | its T_ACK, where
//!      | with error             |    come                |  | its answer is to come
//!      v                        |                  send  |  v
//!  +-------+                    |     its answer     +----------+
//!  | Ended |                    +------------------- | Awaiting |
//!  +-------+                                         +----------+
//! ```
//!
//! Up, Asking and Awaiting end at a T_Disconnect and at a wrong T_ACK, Asking also 3,000 ms after its fourth sending was
//! confirmed, and Awaiting after 6,000 ms without a frame. An answer that comes in Asking is acknowledged at once, and that it
//! came is kept until the T_ACK of its question.

ghost use Rattle.std.specs.Prelude.{◌≡◌};
ghost use Rattle.std.specs.Result.{result_ok};
ghost use Rattle.knx_model.specs.Connection.{IsApdu, frame_in};
ghost use Rattle.knx_model.specs.ClientConnection.{IsClientEnd, awaits_nothing, device_of, client_confirmed, after_confirmed, client_sent, after_send, client_took, client_after, client_stayed, client_expired, after_overdue, client_deadline, Asked};

mod question;
mod steps;
mod took;

use crate::frame::read;
use crate::session::Session;
use crate::wait::IDLE_WAIT_MS;
use knx_model::{ApduOctets, Busy, ClientConfirmed, ClientExpired, ClientTook, IndAddr};
use question::Question;
use std::marker::Model;
use std::mem;
use took::{asking_took, up_took};

/// The client's end of a numbered connection (ISO/IEC 14543-3-2, transport layer). Times are in milliseconds.
#[derive(Drop)]
pub struct ClientConn {
    state: State,
}

/// Where the connection is, with what is known there: the device until its T_Connect is confirmed, then the session, and the
/// service that isn't acknowledged.
#[derive(Drop)]
enum State {
    Asked(IndAddr),
    Up(Session),
    Asking(Session, Question),
    Awaiting(Session),
    Ended,
}

impl Model for ClientConn {
    ghost use Rattle.knx_model.specs.ClientConnection.{ClientEnd};

    ghost Value = { ClientEnd };

    ghost use Rattle.transport_conn.specs.Ends.{client_end};

    ghost view = { λ c. client_end c.state };

    ghost use Rattle.transport_conn.specs.Ends.{HasClientNumbers};

    ghost invariant = { λ c. HasClientNumbers c.state };
}

impl ClientConn {
    /// A connection that begins: the caller sends the T_Connect.
    pub fn begin(device: IndAddr) -> ClientConn
        ensures { result ≡ Asked device }
    {
        ClientConn {
            state: State::Asked(device),
        }
    }

    /// A law of the type: its numbers have four bits. It does nothing.
    pub fn keeps(&self)
        ensures { IsClientEnd self.now }
    {
        // The proof knows the type's invariant once a field is read.
        let _ = &self.state;
    }

    /// The device at the other end; None exactly where the connection has ended.
    pub fn device(&self) -> Option<IndAddr>
        ensures { result ≡ device_of self.now }
    {
        match &self.state {
            State::Asked(device) => Some(*device),
            State::Up(session) | State::Asking(session, _) | State::Awaiting(session) => {
                Some(session.partner)
            }
            State::Ended => None,
        }
    }

    /// Whether the connection is up and neither a T_ACK nor an answer is awaited.
    pub fn awaits_nothing(&self) -> bool
        ensures { result ≡ awaits_nothing self.now }
    {
        matches!(&self.state, State::Up(_))
    }

    /// Takes the confirmation of a frame of this end, of the T_Connect first. The wait for the T_ACK of a service begins at the first
    /// one after its sending, and others change nothing.
    #[tactic(auto, unfolding(knx_model::specs::ClientConnection::client_confirmed, knx_model::specs::ClientConnection::after_confirmed))]
    pub fn confirmed(&mut self, error: bool, now: u64) -> ClientConfirmed
        ensures answer { result ≡ client_confirmed self.old error }
        ensures next { self.new ≡ after_confirmed self.old error now }
    {
        match mem::replace(&mut self.state, State::Ended) {
            State::Asked(_) if error => ClientConfirmed::NoCon,
            State::Asked(device) => {
                self.state = State::Up(Session::new(device, now));
                ClientConfirmed::Up
            }
            state => {
                self.state = state.confirmed(now);
                ClientConfirmed::Timed
            }
        }
    }

    /// The octets that bring a service, an APDU with transport bits 0, to the device. Busy exactly where the connection isn't up or
    /// a service is outstanding; then nothing changes.
    #[tactic(auto, unfolding(knx_model::specs::ClientConnection::client_sent, knx_model::specs::ClientConnection::after_send))]
    pub fn send(&mut self, apdu: &[u8], now: u64) -> Result<ApduOctets, Busy>
        requires { IsApdu apdu.now }
        ensures answer { result_ok result ≡ client_sent self.old apdu.now }
        ensures next { self.new ≡ after_send self.old apdu.now now }
    {
        match mem::replace(&mut self.state, State::Ended) {
            State::Up(session) | State::Awaiting(session) => {
                let frame = session.numbered(apdu);
                let question = Question::new(frame.copied(), apdu);
                self.state = State::Asking(session.at_time(now), question);
                Ok(frame)
            }
            state => {
                self.state = state;
                Err(Busy)
            }
        }
    }

    /// Takes the octets of a frame of the device.
    pub fn take(&mut self, tpdu: &[u8], now: u64) -> ClientTook
        ensures answer { result ≡ client_took self.old (frame_in tpdu.now) }
        ensures next { self.new ≡ client_after self.old now (client_took self.old (frame_in tpdu.now)) }
    {
        let took = self.would_take(tpdu);
        let state = mem::replace(&mut self.state, State::Ended);
        self.state = state.after(now, &took);
        took
    }

    /// What `take` of this frame would answer; nothing changes.
    #[tactic(auto, unfolding(knx_model::specs::ClientConnection::client_took))]
    pub fn would_take(&self, tpdu: &[u8]) -> ClientTook
        ensures { result ≡ client_took self.now (frame_in tpdu.now) }
    {
        let frame = read(tpdu);
        match &self.state {
            State::Up(session) | State::Awaiting(session) => up_took(session, frame),
            State::Asking(session, _) => asking_took(session, frame),
            State::Asked(_) | State::Ended => ClientTook::Dropped,
        }
    }

    /// After a T_ACK or T_NAK of this end was sent: the wait for an answer begins anew. It takes no memory.
    pub fn replied(&mut self, now: u64)
        ensures { self.new ≡ client_stayed self.old now }
    {
        let state = mem::replace(&mut self.state, State::Ended);
        self.state = state.at_time(now);
    }

    /// What has become due.
    pub fn expire(&mut self, now: u64) -> ClientExpired
        ensures answer { result ≡ client_expired self.old now }
        ensures next { self.new ≡ after_overdue self.old now (client_expired self.old now) }
    {
        let expired = self.would_expire(now);
        let state = mem::replace(&mut self.state, State::Ended);
        self.state = state.after_expiry(now, &expired);
        expired
    }

    /// What `expire` would answer at this time; nothing changes.
    #[tactic(auto, unfolding(knx_model::specs::ClientConnection::client_expired))]
    pub fn would_expire(&self, now: u64) -> ClientExpired
        ensures { result ≡ client_expired self.now now }
    {
        match &self.state {
            State::Asking(_, question) => question.expired(now),
            State::Awaiting(session) if session.is_over(now) => ClientExpired::Silent {
                ms: IDLE_WAIT_MS as u32,
            },
            _ => ClientExpired::Nothing,
        }
    }

    /// The nearest time at which a wait has passed; None exactly where no wait runs.
    #[tactic(auto, unfolding(knx_model::specs::ClientConnection::client_deadline))]
    pub fn deadline(&self) -> Option<u64>
        ensures { result ≡ client_deadline self.now }
    {
        match &self.state {
            State::Asking(_, question) => question.deadline(),
            State::Awaiting(session) => Some(session.end()),
            State::Asked(_) | State::Up(_) | State::Ended => None,
        }
    }
}
