//! The answer of a device that isn't acknowledged.

ghost use Rattle.std.specs.Prelude.{◌≡◌, ◌<◌};
ghost use Rattle.knx_model.specs.Connection.{most_repeats};
ghost use Rattle.knx_model.specs.DeviceConnection.{first_answer, is_due, answer_again, outstanding_deadline};

use crate::wait::{ACK_WAIT_MS, MOST_REPEATS};
use knx_model::{ApduOctets, earlier, end_of, has_passed};
use std::marker::Model;

/// An answer that isn't acknowledged: its octets, how often it was sent again, and when it was sent last.
#[derive(Drop)]
pub struct Outstanding {
    frame: ApduOctets,
    repeats: u8,
    sent: u64,
}

impl Model for Outstanding {
    ghost use Rattle.knx_model.specs.DeviceConnection.{Outstanding as Known};

    ghost Value = { Known };

    ghost view = { λ a. record { frame = a.frame; repeats = a.repeats; sent = a.sent } };
}

impl Outstanding {
    /// An answer that is sent for the first time.
    pub fn new(frame: ApduOctets, now: u64) -> Outstanding
        ensures { result ≡ first_answer frame now }
    {
        Outstanding {
            frame,
            repeats: 0,
            sent: now,
        }
    }

    /// Its octets.
    pub fn frame(&self) -> ApduOctets
        ensures { result ≡ self.now.frame }
    {
        self.frame.copied()
    }

    /// Whether it is to be sent again.
    pub fn is_due(&self, now: u64) -> bool
        ensures { result ≡ is_due self.now now }
    {
        self.repeats < MOST_REPEATS && has_passed(ACK_WAIT_MS, self.sent, now)
    }

    /// After it was sent again.
    pub fn again(self, now: u64) -> Outstanding
        requires { self.repeats < most_repeats }
        ensures { result ≡ answer_again self now }
    {
        Outstanding {
            frame: self.frame,
            repeats: self.repeats + 1,
            sent: now,
        }
    }

    /// The nearest time at which it is to be sent again or its connection, which ends then, was idle for too long.
    pub fn deadline(&self, end: u64) -> u64
        ensures { result ≡ outstanding_deadline self.now end }
    {
        if self.repeats < MOST_REPEATS {
            earlier(end_of(ACK_WAIT_MS, self.sent), end)
        } else {
            end
        }
    }
}
