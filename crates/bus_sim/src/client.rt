//! What clients do.

ghost use Rattle.std.specs.Prelude.{◌≡◌, IfErr, OnOk, OnErr};
ghost use Rattle.line_model.specs.World.{Send, From, Renew};
ghost use Rattle.bus_sim.specs.Ended.{StopsFor};
ghost use Rattle.bus_sim.specs.RunNow.{seen};
ghost use Rattle.bus_sim.specs.Went.{Stays, Went};
ghost use Rattle.bus_sim.specs.declared.clients.Clients.TheVariants.{One, Any};

use crate::clients::Clients;
use crate::happened::Happened;
use crate::room::make_room;
use crate::run::Run;
use crate::stopped::Stopped;
use knx_model::NoMemory;

impl Run {
    /// The run is of one client, which drives the line as a link; else it serves.
    pub fn drives(&self) -> Result<(), Stopped>
        ensures one { OnOk result (self.now.begun.clients ≡ One) }
        ensures cause { IfErr result (λ why. StopsFor why (seen self.now)) }
    {
        match self.begun.clients {
            Clients::One => Ok(()),
            Clients::Any => Err(Stopped::Serves),
        }
    }

    /// A client at this endpoint sends a datagram, where the run is of any clients. At `Err` nothing has happened.
    pub fn send_from(&mut self, endpoint: u32, octets: &[u8]) -> Result<(), NoMemory>
        requires { self.old.begun.clients ≡ Any }
        ensures went { OnOk result (Went self.old (From endpoint octets.now) self.new) }
        ensures err { OnErr result (Stays self.old self.new) }
    {
        make_room(&mut self.events, &mut self.owed)?;
        self.line.send_from(u64::from(endpoint), octets);
        self.owed.wait(&self.line, self.begun.clients);
        self.events.push(&Happened::From(endpoint, octets));
        Ok(())
    }

    /// The client sends a datagram. At `Err` nothing has happened.
    pub fn send(&mut self, octets: &[u8]) -> Result<(), Stopped>
        ensures one { OnOk result (self.old.begun.clients ≡ One) }
        ensures went { OnOk result (Went self.old (Send octets.now) self.new) }
        ensures err { OnErr result (Stays self.old self.new) }
        ensures cause { IfErr result (λ why. StopsFor why (seen self.new)) }
    {
        self.drives()?;
        make_room(&mut self.events, &mut self.owed)?;
        self.line.send(octets);
        self.owed.wait(&self.line, self.begun.clients);
        self.events.push(&Happened::Send(octets));
        Ok(())
    }

    /// The client takes the next endpoint. At `Err` nothing has happened.
    pub fn renew(&mut self) -> Result<(), Stopped>
        ensures one { OnOk result (self.old.begun.clients ≡ One) }
        ensures went { OnOk result (Went self.old Renew self.new) }
        ensures err { OnErr result (Stays self.old self.new) }
        ensures cause { IfErr result (λ why. StopsFor why (seen self.new)) }
    {
        self.drives()?;
        make_room(&mut self.events, &mut self.owed)?;
        self.line.renew();
        self.owed.wait(&self.line, self.begun.clients);
        self.events.push(&Happened::Renew);
        Ok(())
    }
}
