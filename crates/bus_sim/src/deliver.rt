//! Datagrams are delivered, lost and refused.

ghost use Rattle.std.specs.Prelude.{◌≡◌, OnOk, OnErr, IfOk, slice_get};
ghost use Rattle.line_model.specs.Network.{OfSent};
ghost use Rattle.line_model.specs.World.{Up, UpRefused, Down, LoseUp, LoseDown};
ghost use Rattle.network_sim.specs.Window.{IsDeliverable};
ghost use Rattle.bus_sim.specs.Went.{Stays, Went, IsRight, world};
ghost use Rattle.bus_sim.specs.Choices.{delivered, event_so};
ghost use Rattle.bus_sim.specs.Numbers.{IsNumber};

use crate::called::{channel_closes, comes_again, reaches_again};
use crate::happened::Happened;
use crate::owed::{Caused, NOTHING};
use crate::room::make_room;
use crate::run::Run;
use knx_model::NoMemory;
use tunnel_sim::Letter;

/// How the client's datagram is delivered.
#[derive(Clone, Copy, Drop)]
pub enum Delivery {
    /// The gateway takes it.
    Taken,
    /// It answers the connect request with this status.
    Refused(u8),
}

impl Run {
    /// A client gets the gateway's datagram of an age. At `Err` nothing has happened.
    pub fn down(&mut self, age: usize) -> Result<Letter, NoMemory>
        requires deliverable { OfSent IsDeliverable (slice_get self.old.line.tunnel.down.kept age) }
        requires right { IsRight self.old (Down age) }
        ensures went { OnOk result (Went self.old (Down age) self.new) }
        ensures got { IfOk result (λ letter. OfSent (λ s. (s.endpoint ≡ letter.to) × (s.octets ≡ letter.octets)) (slice_get (world self.old).tunnel.network.down age)) }
        ensures number { IfOk result (λ letter. IsNumber self.old.begun.clients letter.to) }
        ensures err { OnErr result (Stays self.old self.new) }
    {
        make_room(&mut self.events, &mut self.owed)?;
        let first = reaches_again(&self.index, self.line.number_down(age));
        let to = self.line.endpoint_down(age);
        let octets = self.line.down(age);
        let caused = Caused { first, ..NOTHING };
        self.owed.meet(caused, &self.line, self.begun.clients);
        self.events.push(&Happened::Down(age as u64));
        Ok(Letter { to, octets })
    }

    /// It is lost. At `Err` nothing has happened.
    pub fn lose_down(&mut self, age: usize) -> Result<(), NoMemory>
        requires right { IsRight self.old (LoseDown age) }
        ensures went { OnOk result (Went self.old (LoseDown age) self.new) }
        ensures err { OnErr result (Stays self.old self.new) }
    {
        make_room(&mut self.events, &mut self.owed)?;
        self.line.lose_down(age);
        self.owed.meet(NOTHING, &self.line, self.begun.clients);
        self.events.push(&Happened::LoseDown(age as u64));
        Ok(())
    }

    /// The client's datagram of an age is delivered to the gateway, which takes it or refuses the connect request that it is. At `Err` nothing
    /// has happened.
    pub fn deliver_up(&mut self, age: usize) -> Result<(), NoMemory>
        requires deliverable { OfSent IsDeliverable (slice_get self.old.line.tunnel.up.kept age) }
        requires right { IsRight self.old (delivered self.old age) }
        ensures went { OnOk result (Went self.old (delivered self.old age) self.new) }
        ensures err { OnErr result (Stays self.old self.new) }
    {
        match self.delivery(age) {
            Delivery::Taken => self.up(age),
            Delivery::Refused(status) => self.up_refused(age, status),
        }
    }

    /// How the script wants it delivered.
    fn delivery(&self, age: usize) -> Delivery
        requires deliverable { OfSent IsDeliverable (slice_get self.now.line.tunnel.up.kept age) }
        ensures { event_so result age ≡ delivered self.now age }
    {
        if !self.line.is_connect(age) {
            return Delivery::Taken;
        }
        match self.index.refuses(self.counts.connects().saturating_add(1)) {
            Some(status) => Delivery::Refused(status),
            None => Delivery::Taken,
        }
    }

    /// The gateway takes it.
    fn up(&mut self, age: usize) -> Result<(), NoMemory>
        requires deliverable { OfSent IsDeliverable (slice_get self.old.line.tunnel.up.kept age) }
        requires right { IsRight self.old (Up age) }
        ensures went { OnOk result (Went self.old (Up age) self.new) }
        ensures err { OnErr result (Stays self.old self.new) }
    {
        make_room(&mut self.events, &mut self.owed)?;
        let first = comes_again(&self.index, self.line.number_up(age));
        let connects = self.line.is_connect(age);
        let before = self.line.acted();
        self.line.up(age)?;
        let second = channel_closes(&self.index, before, self.line.acted());
        self.counts.connect_if(connects);
        let caused = Caused { first, second };
        self.owed.meet(caused, &self.line, self.begun.clients);
        self.events.push(&Happened::Up(age as u64));
        Ok(())
    }

    /// It refuses the connect request.
    fn up_refused(&mut self, age: usize, status: u8) -> Result<(), NoMemory>
        requires deliverable { OfSent IsDeliverable (slice_get self.old.line.tunnel.up.kept age) }
        requires right { IsRight self.old (UpRefused age status) }
        ensures went { OnOk result (Went self.old (UpRefused age status) self.new) }
        ensures err { OnErr result (Stays self.old self.new) }
    {
        make_room(&mut self.events, &mut self.owed)?;
        let first = comes_again(&self.index, self.line.number_up(age));
        self.line.up_refused(age, status);
        self.counts.connect_if(true);
        let caused = Caused { first, ..NOTHING };
        self.owed.meet(caused, &self.line, self.begun.clients);
        self.events.push(&Happened::UpRefused(age as u64, status));
        Ok(())
    }

    /// The client's datagram of an age is lost. At `Err` nothing has happened.
    pub fn lose_up(&mut self, age: usize) -> Result<(), NoMemory>
        requires right { IsRight self.old (LoseUp age) }
        ensures went { OnOk result (Went self.old (LoseUp age) self.new) }
        ensures err { OnErr result (Stays self.old self.new) }
    {
        make_room(&mut self.events, &mut self.owed)?;
        self.line.lose_up(age);
        self.owed.meet(NOTHING, &self.line, self.begun.clients);
        self.events.push(&Happened::LoseUp(age as u64));
        Ok(())
    }
}
