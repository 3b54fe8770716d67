//! The device's end of a numbered connection (ISO/IEC 14543-3-2, transport layer).
//!
//! ```text
//!             T_Connect                 answer
//!  +--------+ --------> +------+ --------------------> +-----------+
//!  | Closed |           | Idle |                       | Answering | --+ again after 3,000 ms,
//!  +--------+ <-------- +------+ <-------------------- +-----------+ <-+ three times
//!      ^   T_Disconnect,       its T_ACK, T_Connect          |
//!      |   another T_ACK,                                    |
//!      |   6,000 ms idle                                     |
//!      +-----------------------------------------------------+
//! ```
//!
//! Idle takes the next service of its partner; Answering takes none until its answer is acknowledged. Both acknowledge the
//! service before once more, and begin anew at a T_Connect of the partner. Another sender's T_Connect, and numbered data at
//! a closed end, are answered by T_Disconnect.

ghost use Rattle.std.specs.Prelude.{◌≡◌};
ghost use Rattle.std.specs.Result.{result_ok};
ghost use Rattle.knx_model.specs.Connection.{IsApdu, frame_in};
ghost use Rattle.knx_model.specs.DeviceConnection.{IsDeviceEnd, partner_of, device_took, device_after, device_answered, after_answer, device_expired, after_expiry, device_deadline, Closed};

mod outstanding;
mod steps;
mod took;

use crate::frame::{disconnect, read};
use crate::session::Session;
use knx_model::{ApduOctets, Busy, DeviceExpired, DeviceTook, IndAddr};
use outstanding::Outstanding;
use std::marker::Model;
use std::mem;
use took::{answering_took, closed_took, idle_took, other_sender_took};

/// The device's end of a numbered connection (ISO/IEC 14543-3-2, transport layer). Times are in milliseconds.
#[derive(Drop)]
pub struct DeviceConn {
    state: State,
}

/// Where the connection is, with what is known there: the session of an open one, and the answer that isn't acknowledged.
/// The names are the standard's, CLOSED, OPEN_IDLE and OPEN_WAIT: a device without a connection is Closed, and Idle is an open
/// connection that awaits no T_ACK.
#[derive(Drop)]
enum State {
    Closed,
    Idle(Session),
    Answering(Session, Outstanding),
}

impl Model for DeviceConn {
    ghost use Rattle.knx_model.specs.DeviceConnection.{DeviceEnd};

    ghost Value = { DeviceEnd };

    ghost use Rattle.transport_conn.specs.Ends.{device_end};

    ghost view = { λ c. device_end c.state };

    ghost use Rattle.transport_conn.specs.Ends.{HasDeviceNumbers};

    ghost invariant = { λ c. HasDeviceNumbers c.state };
}

impl DeviceConn {
    /// A device without a connection.
    pub fn idle() -> DeviceConn
        ensures { result ≡ Closed }
    {
        DeviceConn {
            state: State::Closed,
        }
    }

    /// A law of the type: its numbers have four bits. It does nothing.
    pub fn keeps(&self)
        ensures { IsDeviceEnd self.now }
    {
        // The proof knows the type's invariant once a field is read.
        let _ = &self.state;
    }

    /// The partner of the open connection; None exactly where none is open.
    pub fn partner(&self) -> Option<IndAddr>
        ensures { result ≡ partner_of self.now }
    {
        match &self.state {
            State::Closed => None,
            State::Idle(session) | State::Answering(session, _) => Some(session.partner),
        }
    }

    /// Takes the octets of a frame that another sent to this device alone.
    pub fn take(&mut self, from: IndAddr, tpdu: &[u8], now: u64) -> DeviceTook
        ensures answer { result ≡ device_took self.old from (frame_in tpdu.now) }
        ensures next { self.new ≡ device_after self.old from now (device_took self.old from (frame_in tpdu.now)) }
    {
        let took = self.would_take(from, tpdu);
        let state = mem::replace(&mut self.state, State::Closed);
        self.state = state.after(from, now, &took);
        took
    }

    /// What `take` of this frame would answer; nothing changes.
    #[tactic(auto, unfolding(knx_model::specs::DeviceConnection::device_took))]
    pub fn would_take(&self, from: IndAddr, tpdu: &[u8]) -> DeviceTook
        ensures { result ≡ device_took self.now from (frame_in tpdu.now) }
    {
        let frame = read(tpdu);
        match &self.state {
            State::Closed => closed_took(frame),
            State::Idle(session) if session.is_partner(from) => idle_took(session, frame),
            State::Answering(session, _) if session.is_partner(from) => {
                answering_took(session, frame)
            }
            _ => other_sender_took(frame),
        }
    }

    /// The octets that bring an answer, an APDU with transport bits 0, to the partner. Busy exactly where an answer is
    /// outstanding or the connection is closed; then nothing changes.
    #[tactic(auto, unfolding(knx_model::specs::DeviceConnection::device_answered, knx_model::specs::DeviceConnection::after_answer))]
    pub fn answer(&mut self, apdu: &[u8], now: u64) -> Result<ApduOctets, Busy>
        requires { IsApdu apdu.now }
        ensures answer { result_ok result ≡ device_answered self.old apdu.now }
        ensures next { self.new ≡ after_answer self.old apdu.now now }
    {
        match mem::replace(&mut self.state, State::Closed) {
            State::Idle(session) => {
                let frame = session.numbered(apdu);
                let outstanding = Outstanding::new(frame.copied(), now);
                self.state = State::Answering(session.at_time(now), outstanding);
                Ok(frame)
            }
            state => {
                self.state = state;
                Err(Busy)
            }
        }
    }

    /// What has become due.
    pub fn expire(&mut self, now: u64) -> DeviceExpired
        ensures answer { result ≡ device_expired self.old now }
        ensures next { self.new ≡ after_expiry self.old now (device_expired self.old now) }
    {
        let expired = self.would_expire(now);
        let state = mem::replace(&mut self.state, State::Closed);
        self.state = state.after_expiry(now, &expired);
        expired
    }

    /// What `expire` would answer at this time; nothing changes.
    #[tactic(auto, unfolding(knx_model::specs::DeviceConnection::device_expired))]
    pub fn would_expire(&self, now: u64) -> DeviceExpired
        ensures { result ≡ device_expired self.now now }
    {
        match &self.state {
            State::Idle(session) | State::Answering(session, _) if session.is_over(now) => {
                DeviceExpired::Closed(disconnect())
            }
            State::Answering(_, outstanding) if outstanding.is_due(now) => {
                DeviceExpired::Repeat(outstanding.frame())
            }
            _ => DeviceExpired::Nothing,
        }
    }

    /// The nearest time at which a wait has passed; None exactly where no connection is open.
    #[tactic(auto, unfolding(knx_model::specs::DeviceConnection::device_deadline))]
    pub fn deadline(&self) -> Option<u64>
        ensures { result ≡ device_deadline self.now }
    {
        match &self.state {
            State::Closed => None,
            State::Idle(session) => Some(session.end()),
            State::Answering(session, outstanding) => Some(outstanding.deadline(session.end())),
        }
    }
}
