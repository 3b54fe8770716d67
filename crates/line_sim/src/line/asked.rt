//! What is asked of a line: what goes next.

ghost use Rattle.std.specs.Prelude.{◌≡◌, ℕ, IfOk, IfSome, Some, is_some, nat_lt, option_copied, slice_get, true};
ghost use Rattle.knx_model.specs.Device.{written_front};
ghost use Rattle.knx_model.specs.declared.device.WriteKind.TheVariants.{Memory};
ghost use Rattle.knx_model.specs.DeviceState.{DeviceState};
ghost use Rattle.knx_model.specs.DeviceFrames.{AreOctets, worn_octets};
ghost use Rattle.line_model.specs.Counts.{is_connect_at};
ghost use Rattle.line_model.specs.Deliveries.{next_up, next_down};
ghost use Rattle.line_model.specs.Network.{OfSent};
ghost use Rattle.line_model.specs.Owed.{is_connected};
ghost use Rattle.line_model.specs.Tunnel.{Mode, Commissions, Serves};
ghost use Rattle.line_model.specs.World.{World, BusTorn, BusWorn, Up, Down, next_frame};
ghost use Rattle.line_sim.specs.Allowed.{Allows};
ghost use Rattle.line_sim.specs.Line.{IsNow, effect_due, effect_in, frame_due, last_at, taken_in, write_due, write_in};
ghost use Rattle.line_sim.specs.Places.{device_at};
ghost use Rattle.network_sim.specs.Window.{IsDeliverable};

use super::Line;
use crate::laws;
use device_sim::Device;
use knx_model::{ApduOctets, IpFrame, Ldata, NoMemory, Octets, WriteKind};
use std::alloc::Global;

impl Line {
    // ---- datagrams

    /// The age of the client's datagram that is delivered next.
    pub fn next_up(&self) -> Option<usize>
        ensures value { (w : World) → IsNow self.now w → result ≡ next_up w.tunnel }
        ensures deliverable { IfSome result (λ age. OfSent IsDeliverable (slice_get self.now.tunnel.up.kept age)) }
        ensures allowed { IfSome result (λ age. (mode : Mode) → Allows mode self.now (Up age)) }
    {
        self.tunnel.next_up()
    }

    /// The age of the gateway's datagram that the client gets next at its present endpoint.
    pub fn next_down(&self) -> Option<usize>
        ensures value { (w : World) → IsNow self.now w → result ≡ next_down Commissions w.tunnel }
        ensures deliverable { IfSome result (λ age. OfSent IsDeliverable (slice_get self.now.tunnel.down.kept age)) }
        ensures allowed { IfSome result (λ age. Allows Commissions self.now (Down age)) }
    {
        self.tunnel.next_down()
    }

    /// The age of the datagram of a serving gateway that goes next, to whichever of its clients.
    pub fn next_served(&self) -> Option<usize>
        ensures value { (w : World) → IsNow self.now w → result ≡ next_down Serves w.tunnel }
        ensures deliverable { IfSome result (λ age. OfSent IsDeliverable (slice_get self.now.tunnel.down.kept age)) }
        ensures allowed { IfSome result (λ age. Allows Serves self.now (Down age)) }
    {
        self.tunnel.next_served()
    }

    /// The endpoint that the gateway's datagram of an age, which may arrive, goes to.
    pub fn endpoint_down(&self, age: usize) -> u64
        requires { OfSent IsDeliverable (slice_get self.now.tunnel.down.kept age) }
        ensures { (w : World) → IsNow self.now w → OfSent (λ s. s.endpoint ≡ result) (slice_get w.tunnel.network.down age) }
    {
        self.tunnel.addressee(age)
    }

    /// Whether the client's datagram of an age, which may arrive, is a connect request.
    pub fn is_connect(&self, age: usize) -> bool
        requires { OfSent IsDeliverable (slice_get self.now.tunnel.up.kept age) }
        ensures { (w : World) → IsNow self.now w → result ≡ is_connect_at w.tunnel.network.up age }
    {
        matches!(self.tunnel.arrival(age), Some((_, IpFrame::ConnectRequest)))
    }

    // ---- frames

    /// The client's frame that goes over the bus next; None exactly where none waits.
    pub fn frame_due(&self) -> Option<Ldata>
        ensures value { result ≡ frame_due self.now }
        ensures simulates { (w : World) → IsNow self.now w → result ≡ next_frame w }
    {
        self.tunnel.gateway.frame_due()
    }

    /// The write that this frame would be now at the device that it is for; None exactly where it would be none, or there is no frame.
    pub fn would_write(&self) -> Option<WriteKind>
        ensures value { result ≡ write_due self.now }
        ensures simulates { (w : World) → IsNow self.now w → result ≡ write_in w (next_frame w) }
    {
        let frame = self.frame_due()?;
        self.devices.would_write(frame.destination, &frame)
    }

    /// The octets that stand new in memory where power is cut in this write, after the first `k` ones.
    pub fn torn_octets(&self, alloc: Global, k: u32) -> Result<Octets, NoMemory>
        ensures value { IfOk result (λ octets. octets ≡ written_front (effect_due self.now) k) }
        ensures range { IfOk result AreOctets }
        ensures simulates { IfOk result (λ octets. (w : World) → IsNow self.now w → octets ≡ written_front (effect_in w (next_frame w)) k) }
        ensures allowed { IfOk result (λ octets. (mode : Mode) → is_some (write_due self.now) ≡ true → Allows mode self.now (BusTorn (nat_lt 0 k) octets)) }
    {
        laws::what_is_due_is_allowed();
        match self.frame_due() {
            Some(frame) => self.devices.torn_octets(alloc, &frame, k),
            None => Ok(Octets::new(alloc)),
        }
    }

    /// The octets that worn memory keeps of this write.
    pub fn worn_octets(&self) -> ApduOctets
        ensures value { result ≡ worn_octets (effect_due self.now) }
        ensures simulates { (w : World) → IsNow self.now w → result ≡ worn_octets (effect_in w (next_frame w)) }
        ensures allowed { (mode : Mode) → write_due self.now ≡ Some Memory → Allows mode self.now (BusWorn result) }
    {
        laws::what_is_due_is_allowed();
        match self.frame_due() {
            Some(frame) => self.devices.worn_octets(&frame),
            None => ApduOctets::new(),
        }
    }

    /// Whether this frame is for one device, which would take it.
    pub fn would_be_taken(&self) -> bool
        ensures { (w : World) → IsNow self.now w → result ≡ taken_in w (next_frame w) }
    {
        match self.frame_due() {
            Some(frame) => self.devices.takes_alone(frame.destination, &frame),
            None => false,
        }
    }

    /// The frame that a device got last, which the bus may bring it again; None where it has none.
    pub fn last(&self, device: u16) -> Option<Ldata>
        ensures { (w : World) → IsNow self.now w → result ≡ last_at w device }
    {
        self.devices.get(device)?.last()
    }

    /// Whether a device has a connection.
    pub fn is_connected(&self, device: u16) -> bool
        ensures { (w : World) → IsNow self.now w → result ≡ is_connected (w.devices device) }
    {
        match self.devices.get(device) {
            Some(device) => device.is_connected(),
            None => false,
        }
    }

    /// Each device has the address at which it is, for a caller to know. It does nothing.
    pub fn names(&self)
        ensures { (address : ℕ) (d : DeviceState) → device_at self.now.devices address ≡ Some d → d.address.raw ≡ address }
    {
        self.devices.names();
    }

    /// The device at an address.
    pub fn device(&self, address: u16) -> Option<&Device>
        ensures value { option_copied result ≡ device_at self.now.devices address }
        ensures simulates { (w : World) → IsNow self.now w → option_copied result ≡ w.devices address }
    {
        self.devices.get(address)
    }
}
