//! What goes next.

ghost use Rattle.std.specs.Prelude.{◌≡◌, ◌⊎◌, ◌+◌, ◌<◌, ◌≤◌, ℕ, IfSome, slice_get};
ghost use Rattle.line_model.specs.Deliveries.{next_up, next_down};
ghost use Rattle.line_model.specs.Gateway.{gateway_expired, Nothing};
ghost use Rattle.line_model.specs.Network.{MayArrive, MayReach, OfSent};
ghost use Rattle.line_model.specs.Tunnel.{Tunnel as Known, Commissions, Serves, Up, Down, MayHappen};
ghost use Rattle.network_sim.specs.Window.{IsDeliverable};
ghost use Rattle.tunnel_sim.specs.Tunnels.{IsTunnel, tunnel_now};

use super::Tunnel;
use network_sim::Reach;

impl Tunnel {
    /// The age of the client's datagram that the gateway takes next.
    pub fn next_up(&self) -> Option<usize>
        ensures value { (t : Known) → IsTunnel (tunnel_now self.now) t → result ≡ next_up t }
        ensures deliverable { IfSome result (λ age. OfSent IsDeliverable (slice_get self.now.up.kept age)) }
        ensures comes { IfSome result (λ age. MayArrive self.now.gateway.made self.now.up.kept age) }
        ensures may { IfSome result (λ age. (t : Known) → IsTunnel (tunnel_now self.now) t → MayHappen Commissions t (Up age)) }
    {
        network_sim::laws::the_youngest_are_enough();
        self.up.next(Reach::Every, self.gateway.made)
    }

    /// The age of the gateway's datagram that the client gets next at its present endpoint.
    pub fn next_down(&self) -> Option<usize>
        ensures value { (t : Known) → IsTunnel (tunnel_now self.now) t → result ≡ next_down Commissions t }
        ensures deliverable { IfSome result (λ age. OfSent IsDeliverable (slice_get self.now.down.kept age)) }
        ensures comes { IfSome result (λ age. MayReach self.now.present self.now.gateway.made self.now.down.kept age) }
        ensures may { IfSome result (λ age. (t : Known) → IsTunnel (tunnel_now self.now) t → MayHappen Commissions t (Down age)) }
    {
        network_sim::laws::the_youngest_are_enough();
        self.down.next(Reach::To(self.present), self.gateway.made)
    }

    /// The age of the datagram of a serving gateway that goes next, to whichever of its clients.
    pub fn next_served(&self) -> Option<usize>
        ensures value { (t : Known) → IsTunnel (tunnel_now self.now) t → result ≡ next_down Serves t }
        ensures deliverable { IfSome result (λ age. OfSent IsDeliverable (slice_get self.now.down.kept age)) }
        ensures comes { IfSome result (λ age. MayArrive self.now.gateway.made self.now.down.kept age) }
    {
        network_sim::laws::the_youngest_are_enough();
        self.down.next(Reach::Every, self.gateway.made)
    }

    /// How long nothing becomes due at the gateway, where nothing is now: so many milliseconds at most, and at least one of them.
    pub fn still_for(&self, most: u32) -> u32
        ensures few { result ≤ most }
        ensures some { 1 ≤ most → 1 ≤ result }
        ensures still { (t : Known) → IsTunnel (tunnel_now self.now) t → gateway_expired t.gateway t.now ≡ Nothing → (k : ℕ) → k < result → gateway_expired t.gateway (t.now + k) ≡ Nothing }
    {
        tunnel_gateway::laws::deadline_is_nearest();
        match self.gateway.end.deadline() {
            Some(end) => sooner(self.time, end, most),
            None => most,
        }
    }
}

/// From now to the end, at least a millisecond, or this long where that is sooner.
fn sooner(now: u64, end: u64, most: u32) -> u32
    ensures few { result ≤ most }
    ensures some { 1 ≤ most → 1 ≤ result }
    ensures until { (result ≤ 1) ⊎ (now + result ≤ end) }
{
    if end <= now {
        return most.min(1);
    }
    if end - now < u64::from(most) {
        (end - now) as u32
    } else {
        most
    }
}
