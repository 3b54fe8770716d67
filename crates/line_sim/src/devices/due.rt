//! What the devices have to send, and when: only the busy ones are looked at.

ghost use Rattle.std.specs.Prelude.{◌≡◌, ℕ, ◌*◌, ◌+◌, ◌<◌, None, Some, IfNone, IfSome};
ghost use Rattle.line_sim.specs.Due.{IsNearest, deadline_at};
ghost use Rattle.line_sim.specs.Places.{device_at, device_in, sending_at};

use super::Devices;
use knx_model::{Sending, nearer};

impl Devices {
    /// The device with the least address that has something to send at this time, and what; None exactly where none has.
    pub fn next_sender(&self, now: u64) -> Option<(u16, Sending)>
        ensures found { IfSome result (λ sender. sending_at (device_at self.now sender.0) now ≡ Some sender.1) }
        ensures least { IfSome result (λ sender. (a : ℕ) → a < sender.0 → sending_at (device_at self.now a) now ≡ None) }
        ensures none { IfNone result ((a : ℕ) → sending_at (device_at self.now a) now ≡ None) }
    {
        let mut part = 0;
        while let Some(next) = self.busy.first_from(part) {
            if let Some(sending) = self.sending_in(next, now) {
                return Some((u16::from(self.line) * 256 + next as u16, sending));
            }
            part = next + 1;
        }
        None
    }

    /// What the device of a place has to send at this time.
    fn sending_in(&self, part: usize, now: u64) -> Option<Sending>
        requires { part < 256 }
        ensures { result ≡ sending_at (device_in self.now.places part) now }
    {
        self.places[part].as_ref()?.next_sending(now)
    }

    /// The nearest time at which a device's connection has something due; None exactly where there is none.
    pub fn deadline(&self) -> Option<u64>
        ensures { IsNearest (λ a. deadline_at (device_at self.now a)) result }
    {
        let mut nearest = None;
        let mut part = 0;
        while let Some(next) = self.busy.first_from(part) {
            nearest = nearer(nearest, self.deadline_in(next));
            part = next + 1;
        }
        nearest
    }

    /// When the connection of the device of a place has something due.
    fn deadline_in(&self, part: usize) -> Option<u64>
        requires { part < 256 }
        ensures { result ≡ deadline_at (device_in self.now.places part) }
    {
        self.places[part].as_ref()?.deadline()
    }
}
