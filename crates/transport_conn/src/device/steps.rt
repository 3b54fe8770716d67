//! The state of a device's end after each of its answers. What it answers is decided apart, in `took`: so the contract of a call is one
//! equation for the answer and one for the state.

ghost use Rattle.std.specs.Prelude.{◌≡◌};
ghost use Rattle.knx_model.specs.Connection.{advanced, at_time};
ghost use Rattle.knx_model.specs.DeviceConnection.{device_after, device_expired, after_expiry, device_went_on, device_acknowledged, device_left, device_repeated};
ghost use Rattle.transport_conn.specs.Ends.{device_end, MayRepeat};

use super::State;
use crate::session::Session;
use knx_model::{DeviceExpired, DeviceTook, IndAddr};

impl State {
    /// After this answer to a frame.
    #[tactic(auto, unfolding(knx_model::specs::DeviceConnection::device_after))]
    pub fn after(self, from: IndAddr, now: u64, took: &DeviceTook) -> State
        ensures { device_end result ≡ device_after (device_end self) from now took.now }
    {
        match took {
            DeviceTook::Dropped => self,
            DeviceTook::Connected => State::Idle(Session::new(from, now)),
            DeviceTook::Apdu { .. } => self.advanced(now),
            DeviceTook::Again { .. } | DeviceTook::Nak(_) => self.at_time(now),
            DeviceTook::Acked => self.acknowledged(now),
            DeviceTook::Closed { .. } => self.left(from),
        }
    }

    fn advanced(self, now: u64) -> State
        ensures { device_end result ≡ device_went_on (λ s. advanced s now) (device_end self) }
    {
        match self {
            State::Closed => State::Closed,
            State::Idle(session) => State::Idle(session.advanced(now)),
            State::Answering(session, outstanding) => {
                State::Answering(session.advanced(now), outstanding)
            }
        }
    }

    fn at_time(self, now: u64) -> State
        ensures { device_end result ≡ device_went_on (λ s. at_time s now) (device_end self) }
    {
        match self {
            State::Closed => State::Closed,
            State::Idle(session) => State::Idle(session.at_time(now)),
            State::Answering(session, outstanding) => {
                State::Answering(session.at_time(now), outstanding)
            }
        }
    }

    /// After its answer was acknowledged.
    fn acknowledged(self, now: u64) -> State
        ensures { device_end result ≡ device_acknowledged (device_end self) now }
    {
        match self {
            State::Answering(session, _) => State::Idle(session.acknowledged(now)),
            state => state,
        }
    }

    /// After a connection with this sender was closed.
    fn left(self, from: IndAddr) -> State
        ensures { device_end result ≡ device_left (device_end self) from }
    {
        match &self {
            State::Idle(session) | State::Answering(session, _) if session.is_partner(from) => {
                State::Closed
            }
            _ => self,
        }
    }

    /// After this became due.
    #[tactic(auto, unfolding(knx_model::specs::DeviceConnection::device_expired, knx_model::specs::DeviceConnection::after_expiry))]
    pub fn after_expiry(self, now: u64, expired: &DeviceExpired) -> State
        requires { expired.now ≡ device_expired (device_end self) now }
        ensures { device_end result ≡ after_expiry (device_end self) now expired.now }
    {
        match expired {
            DeviceExpired::Nothing => self,
            DeviceExpired::Repeat(_) => self.repeated(now),
            DeviceExpired::Closed(_) => State::Closed,
        }
    }

    fn repeated(self, now: u64) -> State
        requires { MayRepeat (device_end self) }
        ensures { device_end result ≡ device_repeated (device_end self) now }
    {
        match self {
            State::Answering(session, outstanding) => {
                State::Answering(session.at_time(now), outstanding.again(now))
            }
            state => state,
        }
    }
}
