//! The laws of what is kept of the datagrams that were sent (UDP over IPv4).

ghost use Rattle.std.specs.Prelude.{◌≡◌, ℕ, ◌≤◌, List, length, Some, slice_get};
ghost use Rattle.knx_model.specs.declared.frames.ip.IpFrame.{IpFrame as Frame};
ghost use Rattle.knx_model.specs.KnxNetIp.{IsInRange, Written};
ghost use Rattle.line_model.specs.Deliveries.{oldest, goes_up, goes_down, next_up, next_down};
ghost use Rattle.line_model.specs.Fresh.{IsOver, MayComeDown};
ghost use Rattle.line_model.specs.Network.{Sent, MayArrive, MayReach, oldest_age};
ghost use Rattle.line_model.specs.Reading.{datagram_in};
ghost use Rattle.line_model.specs.Tunnel.{Tunnel, Mode, made};
ghost use Rattle.network_sim.specs.declared.place.Reach.TheVariants.{Every};
ghost use Rattle.network_sim.specs.Arriving.{AllOver, passes, reach_down};
ghost use Rattle.network_sim.specs.Readable.{readable};
ghost use Rattle.network_sim.specs.Window.{Window, window_of};

/// Which datagram is delivered next is read off the youngest 128: a datagram with 128 younger ones arrives no more.
pub fn the_youngest_are_enough()
    ensures up { (t : Tunnel) (kept : Window) → window_of t.network.up ≡ kept → next_up t ≡ oldest (goes_up t) 0 kept.kept }
    ensures down { (mode : Mode) (t : Tunnel) (kept : Window) → window_of t.network.down ≡ kept → next_down mode t ≡ oldest (goes_down mode t) 0 kept.kept }
    ensures one_way_up { (t : Tunnel) → next_up t ≡ oldest (passes Every (made t)) 0 t.network.up }
    ensures one_way_down { (mode : Mode) (t : Tunnel) → next_down mode t ≡ oldest (passes (reach_down mode t.present) (made t)) 0 t.network.down }
    ensures older { (made : ℕ) (sent : List Sent) (age : ℕ) → oldest_age ≤ age → ¬ MayArrive made sent age }
    ensures older_at { (present made : ℕ) (sent : List Sent) (age : ℕ) → oldest_age ≤ age → ¬ MayReach present made sent age }
{}

/// Where all that was sent up is over, and all that was sent down, nothing is under way that keeps a tunnel from being settled.
pub fn a_settled_network_is_over()
    ensures up { (t : Tunnel) → AllOver Every (made t) t.network.up → (age : ℕ) (s : Sent) → slice_get t.network.up age ≡ Some s → IsOver (MayArrive (made t) t.network.up age) s }
    ensures down { (mode : Mode) (t : Tunnel) → AllOver (reach_down mode t.present) (made t) t.network.down
        → (age : ℕ) (s : Sent) → slice_get t.network.down age ≡ Some s → IsOver (MayComeDown mode t age) s }
{}

/// What is kept of octets reads as they do; up to 300 all are kept, as of each that the gateway sends.
pub fn what_is_kept_reads_alike()
    ensures reads { (octets : List ℕ) → datagram_in (readable octets) ≡ datagram_in octets }
    ensures whole { (octets : List ℕ) → length octets ≤ 300 → readable octets ≡ octets }
    ensures fits { (octets : List ℕ) → length (readable octets) ≤ 300 }
    ensures written { (frame : Frame) → IsInRange frame → readable (Written frame) ≡ Written frame }
{}
