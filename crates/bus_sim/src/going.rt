//! What goes on where the script calls for nothing.

ghost use Rattle.std.specs.Prelude.{◌≡◌, ◌+◌, ◌≤◌, None, Some, OnErr, IfOk};
ghost use Rattle.knx_model.specs.Connection.{last_time};
ghost use Rattle.line_model.specs.Deliveries.{next_up, next_down};
ghost use Rattle.line_model.specs.Fresh.{Settled};
ghost use Rattle.line_model.specs.Gateway.{gateway_expired};
ghost use Rattle.line_model.specs.World.{now, next_frame};
ghost use Rattle.tunnel_sim.specs.declared.gateway.Due.TheVariants as due;
ghost use Rattle.tunnel_sim.specs.Gateways.{due_of};
ghost use Rattle.bus_sim.specs.RunNow.{NothingCalled, mode, seen};
ghost use Rattle.bus_sim.specs.Turns.{Turns};
ghost use Rattle.bus_sim.specs.Went.{Stays, world};

use crate::run::Run;
use crate::turn::Turn;
use knx_model::NoMemory;
use line_sim::Due;

impl Run {
    /// Nothing is called for.
    pub fn go_on(&mut self, left: u32) -> Result<Turn, NoMemory>
        requires time { now (world self.old) + left ≤ last_time }
        requires free { NothingCalled (seen self.old) }
        ensures turns { IfOk result (λ turn. Turns turn left self.old self.new) }
        ensures err { OnErr result (Stays self.old self.new) }
    {
        match self.age_down() {
            Some(age) => self.next_down(age),
            None => self.go_on_up(left),
        }
    }

    /// And no datagram goes to the client.
    fn go_on_up(&mut self, left: u32) -> Result<Turn, NoMemory>
        requires time { now (world self.old) + left ≤ last_time }
        requires free { NothingCalled (seen self.old) }
        requires down { next_down (mode (seen self.old)) (world self.old).tunnel ≡ None }
        ensures turns { IfOk result (λ turn. Turns turn left self.old self.new) }
        ensures err { OnErr result (Stays self.old self.new) }
    {
        match self.age_up() {
            Some(age) => {
                self.next_up(age)?;
                Ok(Turn::Went)
            }
            None => self.go_on_bus(left),
        }
    }

    /// And none to the gateway.
    fn go_on_bus(&mut self, left: u32) -> Result<Turn, NoMemory>
        requires time { now (world self.old) + left ≤ last_time }
        requires free { NothingCalled (seen self.old) }
        requires down { next_down (mode (seen self.old)) (world self.old).tunnel ≡ None }
        requires up { next_up (world self.old).tunnel ≡ None }
        ensures turns { IfOk result (λ turn. Turns turn left self.old self.new) }
        ensures err { OnErr result (Stays self.old self.new) }
    {
        match self.frame_due() {
            Some(frame) => {
                self.next_frame(&frame)?;
                Ok(Turn::Went)
            }
            None => self.go_on_gateway(left),
        }
    }

    /// And no frame waits for the bus.
    fn go_on_gateway(&mut self, left: u32) -> Result<Turn, NoMemory>
        requires time { now (world self.old) + left ≤ last_time }
        requires free { NothingCalled (seen self.old) }
        requires down { next_down (mode (seen self.old)) (world self.old).tunnel ≡ None }
        requires up { next_up (world self.old).tunnel ≡ None }
        requires bus { next_frame (world self.old) ≡ None }
        ensures turns { IfOk result (λ turn. Turns turn left self.old self.new) }
        ensures err { OnErr result (Stays self.old self.new) }
    {
        match self.gateway_due() {
            Due::Nothing => self.at_devices(left),
            Due::Repeat => {
                self.gateway_repeats()?;
                Ok(Turn::Went)
            }
            Due::Closed => {
                self.gateway_closes()?;
                Ok(Turn::Went)
            }
        }
    }

    /// And the gateway has nothing to send: a device sends, or time passes.
    fn at_devices(&mut self, left: u32) -> Result<Turn, NoMemory>
        requires time { now (world self.old) + left ≤ last_time }
        requires free { NothingCalled (seen self.old) }
        requires down { next_down (mode (seen self.old)) (world self.old).tunnel ≡ None }
        requires up { next_up (world self.old).tunnel ≡ None }
        requires bus { next_frame (world self.old) ≡ None }
        requires gateway { due_of (gateway_expired (world self.old).tunnel.gateway (now (world self.old))) ≡ due.Nothing }
        ensures turns { IfOk result (λ turn. Turns turn left self.old self.new) }
        ensures err { OnErr result (Stays self.old self.new) }
    {
        match self.next_sender() {
            Some((device, sending)) => {
                self.device_sends(device, sending)?;
                Ok(Turn::Went)
            }
            None => {
                line_sim::laws::what_is_settled();
                self.let_pass(left)
            }
        }
    }

    /// Nothing but time can go on: it passes until something is due, or the wait is over.
    fn let_pass(&mut self, left: u32) -> Result<Turn, NoMemory>
        requires time { now (world self.old) + left ≤ last_time }
        requires free { NothingCalled (seen self.old) }
        requires settled { Settled (mode (seen self.old)) (world self.old) }
        ensures turns { IfOk result (λ turn. Turns turn left self.old self.new) }
        ensures err { OnErr result (Stays self.old self.new) }
    {
        self.keeps();
        let ms = self.still_for(left);
        self.pass(ms)?;
        if self.is_over(left, ms) {
            Ok(Turn::Quiet)
        } else {
            Ok(Turn::Passed(ms))
        }
    }
}
