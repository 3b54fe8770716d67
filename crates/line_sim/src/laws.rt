//! The laws of a line as it is held: which events may happen, and that its counts stay small.

ghost use Rattle.std.specs.Prelude.{◌≡◌, ℕ, List, None, Some, length, nat_lt, is_some, true};
ghost use Rattle.knx_model.specs.declared.device.Sending.TheVariants.{Waiting, Repeat, Closing};
ghost use Rattle.knx_model.specs.declared.device.WriteKind.TheVariants.{Memory};
ghost use Rattle.knx_model.specs.Device.{written_front};
ghost use Rattle.knx_model.specs.DeviceFrames.{AreOctets, worn_octets};
ghost use Rattle.line_model.specs.Fresh.{IsFresh, Settled};
ghost use Rattle.line_model.specs.Deliveries.{next_down, next_up};
ghost use Rattle.line_model.specs.Legal.{IsLegal, MayHappen};
ghost use Rattle.line_model.specs.Tunnel.{Mode, Commissions};
ghost use Rattle.line_model.specs.World.{World, Event, AtGateway, BusTorn, BusWorn, DevSend, DevRepeat, DevClose, GwRepeat, GwClose, next_frame, now, replay};
ghost use Rattle.tunnel_sim.specs.declared.gateway.Due.TheVariants as due;
ghost use Rattle.line_sim.specs.Allowed.{Allows};
ghost use Rattle.tunnel_sim.specs.Gateways.{due_of};
ghost use Rattle.line_sim.specs.Line.{LineNow, IsCounted, IsNow, effect_due, write_due};
ghost use Rattle.line_sim.specs.Places.{sending_at};
ghost use Rattle.line_model.specs.Gateway.{gateway_expired};

/// An event that the line as it is held allows may happen in each world that it is a picture of.
pub fn what_is_allowed_may_happen()
    ensures { (mode : Mode) (n : LineNow) (w : World) (e : Event) → IsNow n w → Allows mode n e → MayHappen mode w e }
{}

/// What a device or the gateway has to send, it may send; and a frame that would be a write may be torn or, where it is a memory write, worn.
pub fn what_is_due_is_allowed()
    ensures waiting { (mode : Mode) (w : World) (device : ℕ) (gateway : AtGateway) (left_out : List ℕ) → sending_at (w.devices device) (now w) ≡ Some Waiting → MayHappen mode w (DevSend device gateway left_out) }
    ensures repeat { (mode : Mode) (w : World) (device : ℕ) (gateway : AtGateway) → sending_at (w.devices device) (now w) ≡ Some Repeat → MayHappen mode w (DevRepeat device gateway) }
    ensures closing { (mode : Mode) (w : World) (device : ℕ) → sending_at (w.devices device) (now w) ≡ Some Closing → MayHappen mode w (DevClose device) }
    ensures gateway_repeats { (mode : Mode) (w : World) → due_of (gateway_expired w.tunnel.gateway (now w)) ≡ due.Repeat → MayHappen mode w GwRepeat }
    ensures gateway_closes { (mode : Mode) (w : World) → due_of (gateway_expired w.tunnel.gateway (now w)) ≡ due.Closed → MayHappen mode w GwClose }
    ensures torn { (mode : Mode) (n : LineNow) (k : ℕ) → is_some (write_due n) ≡ true → AreOctets (written_front (effect_due n) k) → Allows mode n (BusTorn (nat_lt 0 k) (written_front (effect_due n) k)) }
    ensures worn { (mode : Mode) (n : LineNow) → write_due n ≡ Some Memory → Allows mode n (BusWorn (worn_octets (effect_due n))) }
{
    tunnel_gateway::laws::what_is_due_happens_in_the_tunnel();
}

/// Where no datagram goes next, no frame waits for the bus, and neither a device nor the gateway has something to send, a world is settled.
pub fn what_is_settled()
    ensures { (mode : Mode) (w : World) → next_up w.tunnel ≡ None → next_down mode w.tunnel ≡ None → next_frame w ≡ None → ((device : ℕ) → sending_at (w.devices device) (now w) ≡ None)
        → due_of (gateway_expired w.tunnel.gateway (now w)) ≡ due.Nothing → Settled mode w }
{}

/// A run counts no farther than it has events: so a caller that knows their number knows that one more can be counted.
pub fn events_bound_the_counts()
    ensures { (start : World) (events : List Event) → IsFresh start → IsLegal Commissions start events → IsCounted (length events) (replay start events).tunnel }
{}
