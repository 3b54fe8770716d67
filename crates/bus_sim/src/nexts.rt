//! What is next where the script calls for nothing, and that it happens.

ghost use Rattle.std.specs.Prelude.{◌≡◌, ℕ, ◌≤◌, Some, None, OnOk, OnErr, IfSome, IfNone, IfOk, IsTrue, IsFalse, slice_get, ◌+◌, ◌⊎◌, ◌↔◌};
ghost use Rattle.knx_model.specs.declared.device.Sending.TheVariants.{Repeat};
ghost use Rattle.knx_model.specs.Connection.{last_time};
ghost use Rattle.line_model.specs.Deliveries.{next_up, next_down};
ghost use Rattle.line_model.specs.Fresh.{HasNothingToSend, Settled};
ghost use Rattle.line_model.specs.Gateway.{gateway_expired};
ghost use Rattle.line_model.specs.Legal.{MayHappen};
ghost use Rattle.line_model.specs.Network.{OfSent};
ghost use Rattle.line_model.specs.World.{Down, LoseDown, LoseUp, Pass, Up, now, next_frame};
ghost use Rattle.tunnel_sim.specs.declared.gateway.Due.TheVariants as due;
ghost use Rattle.tunnel_sim.specs.Gateways.{due_of};
ghost use Rattle.line_sim.specs.Places.{IsDue, sending_at};
ghost use Rattle.network_sim.specs.Window.{IsDeliverable};
ghost use Rattle.bus_sim.specs.Choices.{delivered};
ghost use Rattle.bus_sim.specs.RunNow.{NothingCalled, mode, seen};
ghost use Rattle.bus_sim.specs.Turns.{Happens, Turns};
ghost use Rattle.bus_sim.specs.Went.{IsRight, Stays, world};

use crate::reaching::next_down;
use crate::run::Run;
use crate::turn::Turn;
use knx_model::{Ldata, NoMemory, Sending};
use line_sim::Due;

impl Run {
    /// The age of the gateway's datagram that goes next.
    pub fn age_down(&self) -> Option<usize>
        ensures value { result ≡ next_down (mode (seen self.now)) (world self.now).tunnel }
        ensures deliverable { IfSome result (λ age. OfSent IsDeliverable (slice_get self.now.line.tunnel.down.kept age)) }
        ensures may { IfSome result (λ age. MayHappen (mode (seen self.now)) (world self.now) (Down age)) }
    {
        next_down(&self.line, self.begun.clients)
    }

    /// The gateway's datagram that goes next is lost, or the client gets it.
    pub fn next_down(&mut self, age: usize) -> Result<Turn, NoMemory>
        requires free { NothingCalled (seen self.old) }
        requires next { next_down (mode (seen self.old)) (world self.old).tunnel ≡ Some age }
        requires deliverable { OfSent IsDeliverable (slice_get self.old.line.tunnel.down.kept age) }
        requires may { MayHappen (mode (seen self.old)) (world self.old) (Down age) }
        ensures turns { IfOk result (λ turn. (left : ℕ) → Turns turn left self.old self.new) }
        ensures err { OnErr result (Stays self.old self.new) }
    {
        if self.loses_down(age) {
            self.lose_down(age)?;
            Ok(Turn::Went)
        } else {
            Ok(Turn::Got(self.down(age)?))
        }
    }

    fn loses_down(&self, age: usize) -> bool
        requires free { NothingCalled (seen self.now) }
        requires next { next_down (mode (seen self.now)) (world self.now).tunnel ≡ Some age }
        requires may { MayHappen (mode (seen self.now)) (world self.now) (Down age) }
        ensures lost { IsTrue result → IsRight self.now (LoseDown age) }
        ensures got { IsFalse result → IsRight self.now (Down age) }
    {
        self.index.loses_down(self.line.number_down(age))
    }

    /// The age of the client's datagram that goes next.
    pub fn age_up(&self) -> Option<usize>
        ensures value { result ≡ next_up (world self.now).tunnel }
        ensures deliverable { IfSome result (λ age. OfSent IsDeliverable (slice_get self.now.line.tunnel.up.kept age)) }
        ensures may { IfSome result (λ age. MayHappen (mode (seen self.now)) (world self.now) (Up age)) }
    {
        self.line.next_up()
    }

    /// The client's datagram that goes next is lost, or delivered.
    pub fn next_up(&mut self, age: usize) -> Result<(), NoMemory>
        requires free { NothingCalled (seen self.old) }
        requires next { next_up (world self.old).tunnel ≡ Some age }
        requires deliverable { OfSent IsDeliverable (slice_get self.old.line.tunnel.up.kept age) }
        requires may { MayHappen (mode (seen self.old)) (world self.old) (Up age) }
        ensures happens { OnOk result (Happens self.old self.new) }
        ensures err { OnErr result (Stays self.old self.new) }
    {
        if self.loses_up(age) {
            self.lose_up(age)
        } else {
            self.deliver_up(age)
        }
    }

    fn loses_up(&self, age: usize) -> bool
        requires free { NothingCalled (seen self.now) }
        requires next { next_up (world self.now).tunnel ≡ Some age }
        requires may { MayHappen (mode (seen self.now)) (world self.now) (Up age) }
        ensures lost { IsTrue result → IsRight self.now (LoseUp age) }
        ensures comes { IsFalse result → IsRight self.now (delivered self.now age) }
    {
        self.index.loses_up(self.line.number_up(age))
    }

    /// The frame that waits for the bus.
    pub fn frame_due(&self) -> Option<Ldata>
        ensures { result ≡ next_frame (world self.now) }
    {
        self.line.frame_due()
    }

    /// It goes over the bus.
    pub fn next_frame(&mut self, frame: &Ldata) -> Result<(), NoMemory>
        requires free { NothingCalled (seen self.old) }
        requires due { Some frame.now ≡ next_frame (world self.old) }
        ensures happens { OnOk result (Happens self.old self.new) }
        ensures err { OnErr result (Stays self.old self.new) }
    {
        self.carry(frame)
    }

    /// What the gateway has due.
    pub fn gateway_due(&self) -> Due
        ensures { result ≡ due_of (gateway_expired (world self.now).tunnel.gateway (now (world self.now))) }
    {
        self.line.gateway_due()
    }

    /// The gateway sends its outstanding request again.
    pub fn gateway_repeats(&mut self) -> Result<(), NoMemory>
        requires free { NothingCalled (seen self.old) }
        requires due { due_of (gateway_expired (world self.old).tunnel.gateway (now (world self.old))) ≡ due.Repeat }
        ensures happens { OnOk result (Happens self.old self.new) }
        ensures err { OnErr result (Stays self.old self.new) }
    {
        line_sim::laws::what_is_due_is_allowed();
        self.gw_repeat()
    }

    /// It closes its channel.
    pub fn gateway_closes(&mut self) -> Result<(), NoMemory>
        requires free { NothingCalled (seen self.old) }
        requires due { due_of (gateway_expired (world self.old).tunnel.gateway (now (world self.old))) ≡ due.Closed }
        ensures happens { OnOk result (Happens self.old self.new) }
        ensures err { OnErr result (Stays self.old self.new) }
    {
        line_sim::laws::what_is_due_is_allowed();
        self.gw_close()
    }

    /// The device with the least address that has something to send, and what.
    pub fn next_sender(&self) -> Option<(u16, Sending)>
        ensures found { IfSome result (λ sender. sending_at ((world self.now).devices sender.0) (now (world self.now)) ≡ Some sender.1) }
        ensures repeats { IfSome result (λ sender. sender.1 ≡ Repeat → IsDue self.now.line.devices sender.0 self.now.line.tunnel.now) }
        ensures none { IfNone result ((a : ℕ) → sending_at ((world self.now).devices a) (now (world self.now)) ≡ None) }
    {
        self.line.next_sender()
    }

    /// It sends it.
    pub fn device_sends(&mut self, device: u16, sending: Sending) -> Result<(), NoMemory>
        requires free { NothingCalled (seen self.old) }
        requires found { sending_at ((world self.old).devices device) (now (world self.old)) ≡ Some sending }
        requires repeats { sending ≡ Repeat → IsDue self.old.line.devices device self.old.line.tunnel.now }
        ensures happens { OnOk result (Happens self.old self.new) }
        ensures err { OnErr result (Stays self.old self.new) }
    {
        line_sim::laws::what_is_due_is_allowed();
        match sending {
            Sending::Waiting => self.dev_send(device),
            Sending::Repeat => self.dev_repeat(device),
            Sending::Closing => self.dev_close(device),
        }
    }

    /// Whether a wait is over, of which so much was left and so much has passed since: nothing is due at its end.
    pub fn is_over(&self, left: u32, passed: u32) -> bool
        ensures { IsTrue result ↔ ((passed ≡ left) × HasNothingToSend (world self.now) (now (world self.now))) }
    {
        (passed == left) & self.line.has_nothing_to_send()
    }

    /// How long it stays so where nothing but time can go on, so many milliseconds at most.
    pub fn still_for(&self, left: u32) -> u32
        requires free { NothingCalled (seen self.now) }
        requires settled { Settled (mode (seen self.now)) (world self.now) }
        ensures few { result ≤ left }
        ensures some { 1 ≤ left → 1 ≤ result }
        ensures right { IsRight self.now (Pass result) }
    {
        let now = self.line.now();
        match self.line.deadline() {
            Some(end) => sooner(now, end, left),
            None => left,
        }
    }
}

/// From now to the end, at least a millisecond, or this long where that is sooner.
fn sooner(now: u64, end: u64, left: u32) -> u32
    ensures few { result ≤ left }
    ensures some { 1 ≤ left → 1 ≤ result }
    ensures until { (result ≤ 1) ⊎ (now + result ≤ end) }
{
    if end <= now {
        return left.min(1);
    }
    if end - now < u64::from(left) {
        (end - now) as u32
    } else {
        left
    }
}
