//! What is due on a line now, and when something will be.

ghost use Rattle.std.specs.Prelude.{◌≡◌, ℕ, ◌+◌, ◌&&◌, ◌<◌, ◌≤◌, ◌↔◌, None, Some, IfNone, IfSome, IsTrue};
ghost use Rattle.knx_model.specs.declared.device.Sending.TheVariants.{Repeat};
ghost use Rattle.knx_model.specs.Connection.{last_time};
ghost use Rattle.line_model.specs.Fresh.{HasNothingToSend, Settled, SettledFor};
ghost use Rattle.line_model.specs.Gateway.{gateway_expired};
ghost use Rattle.line_model.specs.Tunnel.{Mode, Commissions};
ghost use Rattle.line_model.specs.World.{World, now};
ghost use Rattle.tunnel_sim.specs.Gateways.{due_of};
ghost use Rattle.line_sim.specs.Line.{IsNow};
ghost use Rattle.line_sim.specs.Places.{IsDue, sending_at};

use super::Line;
use knx_model::{Sending, nearer};
use network_sim::Reach;
use tunnel_sim::Due;

impl Line {
    /// What a device sends next; None exactly where it has nothing to send, or isn't there.
    pub fn next_sending(&self, address: u16) -> Option<Sending>
        ensures { (w : World) → IsNow self.now w → result ≡ sending_at (w.devices address) w.tunnel.now }
    {
        self.devices.get(address)?.next_sending(self.tunnel.time)
    }

    /// The device with the least address that has something to send now, and what; None exactly where none has.
    pub fn next_sender(&self) -> Option<(u16, Sending)>
        ensures found { IfSome result (λ sender. (w : World) → IsNow self.now w → sending_at (w.devices sender.0) (now w) ≡ Some sender.1) }
        ensures least { IfSome result (λ sender. (w : World) → IsNow self.now w → (a : ℕ) → a < sender.0 → sending_at (w.devices a) (now w) ≡ None) }
        ensures none { IfNone result ((w : World) → IsNow self.now w → (a : ℕ) → sending_at (w.devices a) (now w) ≡ None) }
        ensures repeats { IfSome result (λ sender. sender.1 ≡ Repeat → IsDue self.now.devices sender.0 self.now.tunnel.now) }
    {
        self.devices.next_sender(self.tunnel.time)
    }

    /// What the gateway has due now; it doesn't do it.
    pub fn gateway_due(&self) -> Due
        ensures { (w : World) → IsNow self.now w → result ≡ due_of (gateway_expired w.tunnel.gateway (now w)) }
    {
        self.tunnel.gateway.due(self.tunnel.time)
    }

    /// The nearest time at which a device or the gateway has something to send, where none has now; None where that never comes. Up to that
    /// time there is nothing to send, and from then on there is; only at the greatest time, at which waits end that would go on, it isn't said.
    pub fn deadline(&self) -> Option<u64>
        ensures never { IfNone result ((w : World) → IsNow self.now w → HasNothingToSend w (now w) → (at : ℕ) → HasNothingToSend w at) }
        ensures until { IfSome result (λ end. (w : World) → IsNow self.now w → HasNothingToSend w (now w) → (at : ℕ) → at < end → HasNothingToSend w at) }
        ensures from_then { IfSome result (λ end. (w : World) → IsNow self.now w → (at : ℕ) → end ≤ at → at < last_time → ¬ HasNothingToSend w at) }
        ensures later { IfSome result (λ end. (w : World) → IsNow self.now w → HasNothingToSend w (now w) → now w < last_time → now w < end) }
        ensures always_settled { IfNone result ((mode : Mode) (w : World) → IsNow self.now w → Settled mode w → (ms : ℕ) → SettledFor mode w ms) }
        ensures settled { IfSome result (λ end. (mode : Mode) (w : World) → IsNow self.now w → Settled mode w → (ms : ℕ) → now w + ms ≤ end → SettledFor mode w ms) }
    {
        tunnel_gateway::laws::deadline_is_nearest();
        nearer(self.devices.deadline(), self.tunnel.gateway.end.deadline())
    }

    /// Whether nothing but time can go on: no datagram is under way up, nor down to the client's present endpoint, no frame waits for the bus,
    /// and neither a device nor the gateway has something to send.
    pub fn is_settled(&self) -> bool
        ensures { (w : World) → IsNow self.now w → (IsTrue result ↔ Settled Commissions w) }
    {
        let made = self.tunnel.gateway.made;
        let is_over = self.tunnel.up.is_over(Reach::Every, made)
            & self
                .tunnel
                .down
                .is_over(Reach::To(self.tunnel.present), made);
        let is_silent = self.frame_due().is_none() & self.has_nothing_to_send();
        is_over & is_silent
    }

    /// Whether neither a device nor the gateway has something to send now.
    pub fn has_nothing_to_send(&self) -> bool
        ensures { (w : World) → IsNow self.now w → (IsTrue result ↔ HasNothingToSend w (now w)) }
    {
        self.next_sender().is_none() & (self.gateway_due() == Due::Nothing)
    }
}
