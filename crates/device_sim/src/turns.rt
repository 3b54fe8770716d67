//! When a device sends, and what.

ghost use Rattle.std.specs.Prelude.{◌≡◌, [], Some, OnOk, OnErr, ◌↔◌, IsTrue, is_some};
ghost use Rattle.knx_model.specs.declared.device.Sending.{Sending as Way};
ghost use Rattle.knx_model.specs.DeviceConnection.{device_expired, partner_of};
ghost use Rattle.knx_model.specs.DeviceSending.{due_sending, next_sending, sending_frame, after_sending, waiting_frame, pops, repeat_frame, repeats, shut};
ghost use Rattle.device_sim.specs.Sending.{IsQuiet};

use crate::device::Device;
use crate::sending::frame_to;
use apdu_frames::encode;
use knx_model::{Ldata, NoMemory, Sending, Tpdu};
use std::alloc::Global;
use transport_conn::{DeviceConn, DeviceExpired};

impl Device {
    /// Whether it has no connection and nothing to send: then time brings it nothing.
    #[tactic(auto, using(crate::proofs::Sendings::quiet_exactly))]
    pub fn is_quiet(&self) -> bool
        ensures { IsTrue result ↔ IsQuiet self.now }
    {
        self.connection.partner().is_none() && self.unsent.is_empty()
    }

    /// Whether it has a connection.
    pub fn is_connected(&self) -> bool
        ensures { result ≡ is_some (partner_of self.now.connection) }
    {
        self.connection.partner().is_some()
    }

    /// The frame that waits longest to be sent; None exactly where none waits.
    pub fn waiting(&self) -> Option<Ldata>
        ensures { result ≡ waiting_frame self.now }
    {
        Some(self.unsent.front()?.copied())
    }

    /// What it sends next at this time: the frame that waits longest, else its outstanding answer where this is due again, else the
    /// T_Disconnect of a connection that was idle for too long. None exactly where there is none of these.
    pub fn next_sending(&self, now: u64) -> Option<Sending>
        ensures { result ≡ next_sending self.now now }
    {
        match self.unsent.front() {
            Some(_) => Some(Sending::Waiting),
            None => due_sending(&self.connection, now),
        }
    }

    /// Sends the frame that waits longest; None exactly where none waits.
    pub fn send_waiting(&mut self) -> Option<Ldata>
        ensures frame { result ≡ waiting_frame self.old }
        ensures next { self.new ≡ pops self.old }
    {
        self.unsent.pop_front()
    }

    /// Sends its outstanding answer again.
    pub fn repeat(&mut self, now: u64) -> Option<Ldata>
        requires { next_sending self.old now ≡ Some Way.Repeat }
        ensures frame { result ≡ repeat_frame self.old }
        ensures next { self.new ≡ repeats self.old now }
    {
        self.sends(now)
    }

    /// The frame that it sends next at this time, by `next_sending`. A closing and its T_Disconnect are one sending here.
    pub fn sends(&mut self, now: u64) -> Option<Ldata>
        ensures frame { result ≡ sending_frame self.old (next_sending self.old now) }
        ensures next { self.new ≡ after_sending self.old now (next_sending self.old now) }
    {
        match self.unsent.pop_front() {
            Some(frame) => Some(frame),
            None => self.due(now),
        }
    }

    /// Nothing waits.
    #[tactic(auto, using(crate::proofs::Sendings::due_frame_is, crate::proofs::Sendings::due_next_is))]
    fn due(&mut self, now: u64) -> Option<Ldata>
        requires { self.old.unsent ≡ [] }
        ensures frame { result ≡ sending_frame self.old (next_sending self.old now) }
        ensures next { self.new ≡ after_sending self.old now (next_sending self.old now) }
    {
        let partner = self.connection.partner();
        match self.connection.expire(now) {
            DeviceExpired::Nothing => None,
            DeviceExpired::Repeat(tpdu) | DeviceExpired::Closed(tpdu) => {
                Some(frame_to(self.address, partner?, tpdu))
            }
        }
    }

    /// It closes its connection by T_Disconnect, where one is open. At `Err` nothing has changed.
    pub fn shut(&mut self, _alloc: Global) -> Result<(), NoMemory>
        ensures next { OnOk result (self.new ≡ shut self.old) }
        ensures err { OnErr result (self.new ≡ self.old) }
    {
        let Some(partner) = self.connection.partner() else {
            return Ok(());
        };
        self.unsent
            .push_back(frame_to(self.address, partner, encode(&Tpdu::Disconnect)))?;
        self.connection = DeviceConn::idle();
        Ok(())
    }
}

/// What of a connection is due at this time.
fn due_sending(connection: &DeviceConn, now: u64) -> Option<Sending>
    ensures { result ≡ due_sending (device_expired connection.now now) }
{
    match connection.would_expire(now) {
        DeviceExpired::Nothing => None,
        DeviceExpired::Repeat(_) => Some(Sending::Repeat),
        DeviceExpired::Closed(_) => Some(Sending::Closing),
    }
}
