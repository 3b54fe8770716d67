//! A run of the simulated bus.

ghost use Rattle.std.specs.Prelude.{◌≡◌, ◌≤◌, ◌<◌, ◌+◌, ◌^◌, [], IfOk, OnOk, OnErr, length};
ghost use Rattle.address_world.specs.AddressWorld.{Send, Renew};
ghost use Rattle.address_world.specs.AddressStory.{record_of};
ghost use Rattle.address_sim.specs.Held.{Keeps};
ghost use Rattle.address_sim.specs.Told.{start, units_now};
ghost use Rattle.address_sim.specs.Turns.{HasRoom, Stays, Went, begun_of, now, seen};

use crate::events::Events;
use crate::happened::Happened;
use crate::units::Units;
use address_world::{Unit, UnitLoss};
use knx_model::{IndAddr, List, NoMemory};
use std::alloc::Global;
use std::marker::Model;
use tunnel_sim::Tunnel;

/// What a run began with: the tunnel's address, the units, and what is lost.
#[derive(Drop)]
pub struct Beginning {
    pub tunnel: IndAddr,
    pub units: List<Unit>,
    pub losses: List<UnitLoss>,
}

/// A run: what it began with, and all that happened since; tunnel and units as they are now; how many entries its record has, and how many broadcasts
/// went over the bus.
#[derive(Drop)]
pub struct Run {
    pub(crate) begun: Beginning,
    pub(crate) events: Events,
    pub(crate) tunnel: Tunnel,
    pub(crate) units: Units,
    pub(crate) entries: u64,
    pub(crate) broadcasts: u64,
}

impl Model for Run {
    ghost use Rattle.address_sim.specs.Held.{IsHeld};
    ghost use Rattle.address_sim.specs.Turns.{RunState, begun_of};
    ghost use Rattle.tunnel_sim.specs.Tunnels.{tunnel_now};

    ghost Value = { RunState };

    ghost view = { λ r. record { begun = begun_of r.begun; events = r.events.list; room = r.events.room } };

    ghost invariant = { λ r. IsHeld (record { begun = begun_of r.begun; events = r.events.list }) (tunnel_now r.tunnel) r.units r.entries r.broadcasts };
}

impl Run {
    /// A run on which nothing has happened.
    pub fn begin(alloc: Global, begun: Beginning) -> Result<Run, NoMemory>
        ensures { IfOk result (λ run. (run.begun ≡ begun_of begun) × (run.events ≡ [])) }
    {
        let tunnel = Tunnel::new(alloc, begun.tunnel)?;
        let units = Units::new(alloc, begun.units.as_slice())?;
        Ok(Run {
            begun,
            events: Events::new(alloc),
            tunnel,
            units,
            entries: 0,
            broadcasts: 0,
        })
    }

    /// What holds of each run, for a caller to know. It does nothing.
    pub fn keeps(&self)
        ensures { Keeps (seen self.now) }
    {
        // The proof knows the type's invariant once a field is read.
        let _ = &self.events;
    }

    /// The time.
    pub fn now(&self) -> u64
        ensures { result ≡ now self.now }
    {
        self.tunnel.time
    }

    /// How many entries its record has.
    pub fn entries(&self) -> u64
        ensures { result ≡ length (record_of (start (seen self.now)) self.now.events) }
    {
        self.entries
    }

    /// The units as they now are.
    pub fn units(&self) -> &[Unit]
        ensures { result.now ≡ units_now (seen self.now) }
    {
        self.units.shown()
    }

    /// Takes room for so many more events.
    pub fn make_room(&mut self, more: usize) -> Result<(), NoMemory>
        ensures stays { Stays self.old self.new }
        ensures room { OnOk result (HasRoom more self.new) }
    {
        self.events.reserve(more)
    }

    /// The client sends a datagram. At `Err` nothing has happened.
    pub fn send(&mut self, octets: &[u8]) -> Result<(), NoMemory>
        ensures went { OnOk result (Went self.old (Send octets.now) self.new) }
        ensures err { OnErr result (Stays self.old self.new) }
    {
        self.events.reserve(1)?;
        self.tunnel.send(octets);
        self.entries += 1;
        self.events.push(&Happened::Send(octets));
        Ok(())
    }

    /// The client takes the next endpoint. At `Err` nothing has happened.
    pub fn renew(&mut self) -> Result<(), NoMemory>
        ensures went { OnOk result (Went self.old Renew self.new) }
        ensures err { OnErr result (Stays self.old self.new) }
    {
        self.events.reserve(1)?;
        self.tunnel.renew();
        self.entries += 1;
        self.events.push(&Happened::Renew);
        Ok(())
    }
}
