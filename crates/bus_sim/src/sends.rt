//! What devices and the gateway do of themselves, and the time.

ghost use Rattle.std.specs.Prelude.{◌≡◌, ◌+◌, ◌≤◌, [], Some, OnOk, OnErr};
ghost use Rattle.knx_model.specs.Connection.{last_time};
ghost use Rattle.line_model.specs.World.{BusAgain, DevSend, DevRepeat, DevClose, GwRepeat, GwClose, Pass, now};
ghost use Rattle.line_sim.specs.Places.{IsDue};
ghost use Rattle.tunnel_sim.specs.Tunnels.{at_gateway};
ghost use Rattle.tunnel_sim.specs.Gateways.{due_of};
ghost use Rattle.line_model.specs.Gateway.{gateway_expired};
ghost use Rattle.tunnel_sim.specs.declared.gateway.Due.TheVariants as due;
ghost use Rattle.bus_sim.specs.Went.{Stays, Went, IsRight, world};
ghost use Rattle.bus_sim.specs.Choices.{heard_so};

use crate::called::connection_closes;
use crate::counts::Met;
use crate::happened::Happened;
use crate::owed::{Caused, NOTHING};
use crate::room::make_room;
use crate::run::Run;
use knx_model::{IndAddr, NoMemory};
use line_sim::AtGateway;

/// A frame that the device sends.
const SENT: Met = Met {
    to: false,
    from: true,
    taken: false,
    wrote: false,
};

impl Run {
    /// Whether the next frame of a device is lost for the gateway.
    fn at_gateway(&self, device: u16) -> AtGateway
        ensures { at_gateway result ≡ heard_so self.now device }
    {
        let n = self.counts.of(device).from.saturating_add(1);
        if self.index.loses_from(IndAddr { raw: device }, n) {
            AtGateway::IsLost
        } else {
            AtGateway::Comes
        }
    }

    /// A device's oldest unsent frame goes over the bus. At `Err` nothing has happened.
    pub fn dev_send(&mut self, device: u16) -> Result<(), NoMemory>
        requires { IsRight self.old (DevSend device (heard_so self.old device) []) }
        ensures went { OnOk result (Went self.old (DevSend device (heard_so self.old device) []) self.new) }
        ensures err { OnErr result (Stays self.old self.new) }
    {
        let at = self.at_gateway(device);
        make_room(&mut self.events, &mut self.owed)?;
        self.line.dev_send(self.alloc, device, at)?;
        self.counts.add(device, SENT);
        self.owed.meet(NOTHING, &self.line, self.begun.clients);
        self.events.push(&Happened::DevSend(device, at));
        Ok(())
    }

    /// A device's outstanding answer, which is due again, goes over the bus once more. At `Err` nothing has happened.
    pub fn dev_repeat(&mut self, device: u16) -> Result<(), NoMemory>
        requires due { IsDue self.old.line.devices device self.old.line.tunnel.now }
        requires right { IsRight self.old (DevRepeat device (heard_so self.old device)) }
        ensures went { OnOk result (Went self.old (DevRepeat device (heard_so self.old device)) self.new) }
        ensures err { OnErr result (Stays self.old self.new) }
    {
        let at = self.at_gateway(device);
        make_room(&mut self.events, &mut self.owed)?;
        self.line.dev_repeat(device, at)?;
        self.counts.add(device, SENT);
        self.owed.meet(NOTHING, &self.line, self.begun.clients);
        self.events.push(&Happened::DevRepeat(device, at));
        Ok(())
    }

    /// A device closes its connection. At `Err` nothing has happened.
    pub fn dev_close(&mut self, device: u16) -> Result<(), NoMemory>
        requires { IsRight self.old (DevClose device) }
        ensures went { OnOk result (Went self.old (DevClose device) self.new) }
        ensures err { OnErr result (Stays self.old self.new) }
    {
        make_room(&mut self.events, &mut self.owed)?;
        self.line.dev_close(self.alloc, device)?;
        self.owed.meet(NOTHING, &self.line, self.begun.clients);
        self.events.push(&Happened::DevClose(device));
        Ok(())
    }

    /// A device takes again the frame that it got last. At `Err` nothing has happened.
    pub fn bring_again(&mut self, device: u16) -> Result<(), NoMemory>
        requires { IsRight self.old (BusAgain device) }
        ensures went { OnOk result (Went self.old (BusAgain device) self.new) }
        ensures err { OnErr result (Stays self.old self.new) }
    {
        make_room(&mut self.events, &mut self.owed)?;
        let taken = self.line.would_be_taken_again(device);
        let wrote = self.line.would_write_again(device).is_some();
        let n = self.counts.of(device).taken.saturating_add(1);
        let first = connection_closes(&self.index, device, taken, n);
        self.line.bus_again(self.alloc, device)?;
        let met = Met {
            to: false,
            from: false,
            taken,
            wrote,
        };
        self.counts.add(device, met);
        let caused = Caused { first, ..NOTHING };
        self.owed.meet(caused, &self.line, self.begun.clients);
        self.events.push(&Happened::BusAgain(device));
        Ok(())
    }

    /// The gateway sends its outstanding request again, which is due. At `Err` nothing has happened.
    pub fn gw_repeat(&mut self) -> Result<(), NoMemory>
        requires due { due_of (gateway_expired (world self.old).tunnel.gateway (now (world self.old))) ≡ due.Repeat }
        requires right { IsRight self.old GwRepeat }
        ensures went { OnOk result (Went self.old GwRepeat self.new) }
        ensures err { OnErr result (Stays self.old self.new) }
    {
        make_room(&mut self.events, &mut self.owed)?;
        let _ = self.line.gateway_expire();
        self.owed.meet(NOTHING, &self.line, self.begun.clients);
        self.events.push(&Happened::GwRepeat);
        Ok(())
    }

    /// The gateway closes its channel. At `Err` nothing has happened.
    pub fn gw_close(&mut self) -> Result<(), NoMemory>
        requires { IsRight self.old GwClose }
        ensures went { OnOk result (Went self.old GwClose self.new) }
        ensures err { OnErr result (Stays self.old self.new) }
    {
        make_room(&mut self.events, &mut self.owed)?;
        self.line.gateway_close();
        self.owed.meet(NOTHING, &self.line, self.begun.clients);
        self.events.push(&Happened::GwClose);
        Ok(())
    }

    /// So many milliseconds pass. At `Err` nothing has happened.
    pub fn pass(&mut self, ms: u32) -> Result<(), NoMemory>
        requires time { now (world self.old) + ms ≤ last_time }
        requires right { IsRight self.old (Pass ms) }
        ensures went { OnOk result (Went self.old (Pass ms) self.new) }
        ensures err { OnErr result (Stays self.old self.new) }
    {
        make_room(&mut self.events, &mut self.owed)?;
        let _ = self.line.pass(u64::from(ms));
        self.owed.meet(NOTHING, &self.line, self.begun.clients);
        self.events.push(&Happened::Pass(ms));
        Ok(())
    }
}
