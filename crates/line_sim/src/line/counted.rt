//! Datagrams by their numbers, as a script counts them: how many each side sent is kept as a number of 64 bits, and of the datagrams
//! themselves the youngest 128.

ghost use Rattle.std.specs.Prelude.{◌≡◌, ◌^◌, ◌<◌, ◌↔◌, IfSome, IsTrue, List, is_some, length, slice_get};
ghost use Rattle.line_model.specs.Counts.{age_of, number_at, takes_alone, write_of};
ghost use Rattle.line_model.specs.Deliveries.{goes_up, goes_down};
ghost use Rattle.line_model.specs.Network.{OfSent, Sent, oldest_age};
ghost use Rattle.line_model.specs.Owed.{passes_again};
ghost use Rattle.line_model.specs.Tunnel.{IsOpen, Mode, Commissions, Serves};
ghost use Rattle.line_model.specs.World.{World, Up, Down};
ghost use Rattle.line_sim.specs.Allowed.{Allows};
ghost use Rattle.tunnel_sim.specs.Gateways.{CanCount, greatest_count};
ghost use Rattle.line_sim.specs.Line.{AreCounted, IsNow, last_at};
ghost use Rattle.tunnel_sim.specs.Tunnels.{greatest_endpoint};
ghost use Rattle.network_sim.specs.Window.{capped, CanTell, IsAlikeToScripts, IsDeliverable, age_while_kept, window_of};
ghost use Rattle.network_sim.specs.Arriving.{MayCome, passes};

use super::Line;
use knx_model::WriteKind;
use network_sim::{Reach, Sendings};

impl Line {
    /// The time, in milliseconds.
    pub fn now(&self) -> u64
        ensures value { result ≡ self.now.tunnel.now }
        ensures simulates { (w : World) → IsNow self.now w → result ≡ w.tunnel.now }
    {
        self.tunnel.time
    }

    /// Whether a channel is open.
    pub fn has_channel(&self) -> bool
        ensures value { IsTrue result ↔ IsOpen self.now.tunnel.gateway.end.channel }
        ensures simulates { (w : World) → IsNow self.now w → (IsTrue result ↔ IsOpen w.tunnel.gateway.channel) }
    {
        self.tunnel.gateway.end.endpoint().is_some()
    }

    /// How many channels the gateway made.
    pub fn made(&self) -> u64
        ensures { result ≡ self.now.tunnel.gateway.made }
    {
        self.tunnel.gateway.made
    }

    /// How many requests it acted on; the greatest number of 64 bits where there were more.
    pub fn acted(&self) -> u64
        ensures value { result ≡ self.now.tunnel.gateway.acted }
        ensures simulates { (w : World) → IsNow self.now w → result ≡ capped (length w.tunnel.gateway.acted) }
    {
        self.tunnel.gateway.acted
    }

    /// Whether all counts are below the greatest number of 64 bits: then they are exact, and what one event more brings can be counted.
    pub fn can_count(&self) -> bool
        ensures renews { IsTrue result → self.now.tunnel.present < greatest_endpoint }
        ensures channels { IsTrue result → CanCount self.now.tunnel.gateway }
        ensures exact { IsTrue result → (w : World) → IsNow self.now w → AreCounted w }
        ensures where_few { self.now.tunnel.present < greatest_endpoint → self.now.tunnel.gateway.made < greatest_count → self.now.tunnel.up.count < greatest_count
            → self.now.tunnel.down.count < greatest_count → self.now.tunnel.gateway.acted < greatest_count → IsTrue result }
    {
        self.tunnel.present < u64::MAX
            && self.tunnel.gateway.made < u64::MAX
            && self.tunnel.gateway.acted < u64::MAX
            && self.tunnel.up.count() < u64::MAX
            && self.tunnel.down.count() < u64::MAX
    }

    /// The number of the client's datagram of an age. A script can't tell it from the number of the definitions, and where fewer than 2^64
    /// were sent it is that number.
    pub fn number_up(&self, age: usize) -> u64
        ensures alike { (w : World) → IsNow self.now w → age < oldest_age → IsAlikeToScripts result (number_at w.tunnel.network.up age) }
        ensures exact { (w : World) → IsNow self.now w → length w.tunnel.network.up < 2 ^ 64 → result ≡ number_at w.tunnel.network.up age }
    {
        self.tunnel.up.number_of(age)
    }

    /// The number of the gateway's datagram of an age.
    pub fn number_down(&self, age: usize) -> u64
        ensures alike { (w : World) → IsNow self.now w → age < oldest_age → IsAlikeToScripts result (number_at w.tunnel.network.down age) }
        ensures exact { (w : World) → IsNow self.now w → length w.tunnel.network.down < 2 ^ 64 → result ≡ number_at w.tunnel.network.down age }
    {
        self.tunnel.down.number_of(age)
    }

    /// The age of the client's datagram of a number, where fewer than 128 younger ones were sent.
    pub fn age_up(&self, number: u64) -> Option<usize>
        ensures { (w : World) → IsNow self.now w → CanTell number w.tunnel.network.up → result ≡ age_while_kept w.tunnel.network.up number }
    {
        self.tunnel.up.age_of(number)
    }

    /// The age of the gateway's datagram of a number, where fewer than 128 younger ones were sent.
    pub fn age_down(&self, number: u64) -> Option<usize>
        ensures { (w : World) → IsNow self.now w → CanTell number w.tunnel.network.down → result ≡ age_while_kept w.tunnel.network.down number }
    {
        self.tunnel.down.age_of(number)
    }

    /// The age of the client's datagram of a number, where it was delivered once and may come to the gateway once more.
    pub fn again_up(&self, number: u64) -> Option<usize>
        ensures possible { (w : World) → IsNow self.now w → CanTell number w.tunnel.network.up → is_some result ≡ passes_again (goes_up w.tunnel) w.tunnel.network.up number }
        ensures age { IfSome result (λ age. (w : World) → IsNow self.now w → CanTell number w.tunnel.network.up → age ≡ age_of w.tunnel.network.up number) }
        ensures deliverable { IfSome result (λ age. OfSent IsDeliverable (slice_get self.now.tunnel.up.kept age)) }
        ensures allowed { IfSome result (λ age. (mode : Mode) → Allows mode self.now (Up age)) }
    {
        again(
            &self.tunnel.up,
            number,
            Reach::Every,
            self.tunnel.gateway.made,
        )
    }

    /// The age of the gateway's datagram of a number, where it was delivered once and the client may get it once more at its present endpoint.
    pub fn again_down(&self, number: u64) -> Option<usize>
        ensures possible { (w : World) → IsNow self.now w → CanTell number w.tunnel.network.down → is_some result ≡ passes_again (goes_down Commissions w.tunnel) w.tunnel.network.down number }
        ensures age { IfSome result (λ age. (w : World) → IsNow self.now w → CanTell number w.tunnel.network.down → age ≡ age_of w.tunnel.network.down number) }
        ensures deliverable { IfSome result (λ age. OfSent IsDeliverable (slice_get self.now.tunnel.down.kept age)) }
        ensures allowed { IfSome result (λ age. Allows Commissions self.now (Down age)) }
    {
        again(
            &self.tunnel.down,
            number,
            Reach::To(self.tunnel.present),
            self.tunnel.gateway.made,
        )
    }

    /// The age of the datagram of a number of a serving gateway, where it was delivered once and may go once more.
    pub fn again_served(&self, number: u64) -> Option<usize>
        ensures possible { (w : World) → IsNow self.now w → CanTell number w.tunnel.network.down → is_some result ≡ passes_again (goes_down Serves w.tunnel) w.tunnel.network.down number }
        ensures age { IfSome result (λ age. (w : World) → IsNow self.now w → CanTell number w.tunnel.network.down → age ≡ age_of w.tunnel.network.down number) }
        ensures deliverable { IfSome result (λ age. OfSent IsDeliverable (slice_get self.now.tunnel.down.kept age)) }
        ensures allowed { IfSome result (λ age. Allows Serves self.now (Down age)) }
    {
        again(
            &self.tunnel.down,
            number,
            Reach::Every,
            self.tunnel.gateway.made,
        )
    }

    // ---- the frame that a device got last, once more

    /// Whether it is for this device alone, which would take it again.
    pub fn would_be_taken_again(&self, device: u16) -> bool
        ensures { (w : World) → IsNow self.now w → result ≡ takes_alone (w.devices device) (last_at w device) }
    {
        match self.last(device) {
            Some(frame) => self.devices.takes_alone(device, &frame),
            None => false,
        }
    }

    /// The write that it would be now at this device.
    pub fn would_write_again(&self, device: u16) -> Option<WriteKind>
        ensures { (w : World) → IsNow self.now w → result ≡ write_of (w.devices device) (last_at w device) }
    {
        self.devices.would_write(device, &self.last(device)?)
    }
}

/// The age of the datagram of a number, where it was delivered once and may be delivered once more.
fn again(sent: &Sendings, number: u64, reach: Reach, made: u64) -> Option<usize>
    ensures possible { (all : List Sent) → window_of all ≡ sent.now → CanTell number all → is_some result ≡ passes_again (passes reach made) all number }
    ensures age { IfSome result (λ age. (all : List Sent) → window_of all ≡ sent.now → CanTell number all → age ≡ age_of all number) }
    ensures deliverable { IfSome result (λ age. OfSent IsDeliverable (slice_get sent.now.kept age)) }
    ensures comes { IfSome result (λ age. MayCome reach made sent.now.kept age) }
{
    match sent.age_of(number) {
        Some(age) if sent.may_go_again(number, reach, made) => Some(age),
        _ => None,
    }
}
