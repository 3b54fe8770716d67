//! The gateway's request that isn't acknowledged.

ghost use Rattle.std.specs.Prelude.{◌≡◌, ◌≤◌, length, true};
ghost use Rattle.knx_model.specs.Connection.{has_passed, wait_end, earlier_time};
ghost use Rattle.line_model.specs.Gateway.{acknowledgement_wait};
ghost use Rattle.line_model.specs.GatewayEnd.{first_request};

use crate::wait::ACK_WAIT_MS;
use knx_model::{Datagram, earlier, end_of, has_passed};
use std::marker::Model;

/// A request that isn't acknowledged (ISO 22510, Tunnelling): its cEMI octets, whether it was sent again, and when it was sent last.
#[derive(Drop)]
pub struct Request {
    frame: Datagram,
    repeated: bool,
    sent: u64,
}

impl Model for Request {
    ghost use Rattle.std.specs.Prelude.{◌≤◌, length};
    ghost use Rattle.line_model.specs.Gateway.{Request as Known};

    ghost Value = { Known };

    ghost view = { λ r. record { frame = r.frame; repeated = r.repeated; sent = r.sent } };

    ghost invariant = { λ r. (1 ≤ length r.frame) × (length r.frame ≤ 290) };
}

impl Request {
    /// A request that is sent for the first time.
    pub fn new(cemi: &[u8], now: u64) -> Request
        requires least { 1 ≤ length cemi.now }
        requires most { length cemi.now ≤ 290 }
        ensures { result ≡ first_request cemi.now now }
    {
        Request {
            frame: Datagram::from_slice(cemi),
            repeated: false,
            sent: now,
        }
    }

    /// Its cEMI octets.
    pub fn cemi(&self) -> Datagram
        ensures value { result ≡ self.now.frame }
        ensures least { 1 ≤ length result }
        ensures most { length result ≤ 290 }
    {
        self.frame.copied()
    }

    /// Whether it was sent again.
    pub fn is_repeated(&self) -> bool
        ensures { result ≡ self.now.repeated }
    {
        self.repeated
    }

    /// Whether its acknowledgement was awaited long enough.
    pub fn is_due(&self, now: u64) -> bool
        ensures { result ≡ has_passed acknowledgement_wait self.now.sent now }
    {
        has_passed(ACK_WAIT_MS, self.sent, now)
    }

    /// It is sent again.
    pub fn repeat(&mut self, now: u64)
        ensures { self.new ≡ record self.old { repeated = true; sent = now } }
    {
        self.repeated = true;
        self.sent = now;
    }

    /// The nearer of a time and that at which its acknowledgement will have been awaited long enough.
    pub fn deadline(&self, end: u64) -> u64
        ensures { result ≡ earlier_time (wait_end acknowledgement_wait self.now.sent) end }
    {
        earlier(end_of(ACK_WAIT_MS, self.sent), end)
    }
}
