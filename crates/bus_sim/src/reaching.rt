//! Which of the gateway's datagrams goes down next, by whose the run is: one client gets what comes to its present endpoint, and where the
//! gateway serves any clients each datagram goes to its own endpoint.

ghost use Rattle.std.specs.Prelude.{◌≡◌, IfSome, is_some, slice_get};
ghost use Rattle.line_model.specs.Counts.{age_of};
ghost use Rattle.line_model.specs.Deliveries.{goes_down, next_down};
ghost use Rattle.line_model.specs.Network.{OfSent};
ghost use Rattle.line_model.specs.Owed.{passes_again};
ghost use Rattle.line_model.specs.World.{World, Down};
ghost use Rattle.line_sim.specs.Allowed.{Allows};
ghost use Rattle.line_sim.specs.Line.{IsNow};
ghost use Rattle.network_sim.specs.Window.{CanTell, IsDeliverable};
ghost use Rattle.bus_sim.specs.Begun.{mode_of};

use crate::clients::Clients;
use line_sim::Line;

/// The age of the gateway's datagram that goes next.
pub fn next_down(line: &Line, clients: Clients) -> Option<usize>
    ensures value { (w : World) → IsNow line.now w → result ≡ next_down (mode_of clients) w.tunnel }
    ensures deliverable { IfSome result (λ age. OfSent IsDeliverable (slice_get line.now.tunnel.down.kept age)) }
    ensures allowed { IfSome result (λ age. Allows (mode_of clients) line.now (Down age)) }
{
    match clients {
        Clients::One => line.next_down(),
        Clients::Any => line.next_served(),
    }
}

/// The age of the gateway's datagram of a number, where it was delivered once and may be delivered once more.
pub fn again_down(line: &Line, clients: Clients, number: u64) -> Option<usize>
    ensures possible { (w : World) → IsNow line.now w → CanTell number w.tunnel.network.down → is_some result ≡ passes_again (goes_down (mode_of clients) w.tunnel) w.tunnel.network.down number }
    ensures age { IfSome result (λ age. (w : World) → IsNow line.now w → CanTell number w.tunnel.network.down → age ≡ age_of w.tunnel.network.down number) }
    ensures deliverable { IfSome result (λ age. OfSent IsDeliverable (slice_get line.now.tunnel.down.kept age)) }
    ensures allowed { IfSome result (λ age. Allows (mode_of clients) line.now (Down age)) }
{
    match clients {
        Clients::One => line.again_down(number),
        Clients::Any => line.again_served(number),
    }
}
