//! A run that serves clients at a port, turn by turn.

ghost use Rattle.std.specs.Prelude.{◌≡◌, ◌+◌, ◌≤◌, ◌↔◌, IfErr, IfOk, IsTrue, List, OnErr, OnOk};
ghost use Rattle.knx_model.specs.Connection.{last_time};
ghost use Rattle.line_model.specs.PortStory.{PortItem};
ghost use Rattle.line_model.specs.Serving.{HasEnded, quiet_turns};
ghost use Rattle.line_model.specs.World.{now};
ghost use Rattle.bus_sim.specs.RunNow.{script, seen, start};
ghost use Rattle.bus_sim.specs.Serving.{BreaksOff, ServedSo, StandsAt, after_turns, served_beginning, served_before};
ghost use Rattle.bus_sim.specs.Turned.{CountsQuiet, PlaysFor, StopsPlaying, StopsTurn, Turned};
ghost use Rattle.bus_sim.specs.Went.{Stays, world};
ghost use Rattle.bus_sim.specs.declared.clients.Clients.TheVariants.{Any};

use crate::clients::Clients;
use crate::counts::Counts;
use crate::events::Events;
use crate::owed::Owing;
use crate::run::Run;
use crate::serve::Served;
use crate::stopped::Broken;
use crate::turn::Turn;
use knx_model::NoMemory;
use line_model::{Port, PortPolled};
use line_sim::Line;
use std::alloc::Global;

/// So long a turn waits for a datagram, in milliseconds, and so long a quiet one lasts on the line.
const QUIET_MS: u32 = 100;

/// The serving ends where so many turns in a row were quiet.
const QUIET_TURNS: u8 = 10;

impl Run {
    /// Serves at a port, for so many turns at most.
    pub fn serve<P: Port>(
        &mut self,
        alloc: Global,
        port: &mut P,
        turns: u32,
    ) -> Result<Served, Broken>
        ensures served { IfOk result (λ served. ServedSo served turns (seen self.old) (seen self.new) (P.story port.old) (P.story port.new)) }
        ensures broken { OnErr result (BreaksOff turns (seen self.old) (seen self.new) (P.story port.old) (P.story port.new)) }
        ensures cause { IfErr result (λ why. StandsAt why (seen self.new)) }
        ensures counts { P.faults port.new ≡ after_turns result (P.faults port.old) }
        ensures start { start (seen self.new) ≡ start (seen self.old) }
        ensures script { script (seen self.new) ≡ script (seen self.old) }
    {
        self.begin_to_serve(alloc)?;
        let mut quiet = 0;
        let mut left = turns;
        while left > 0 {
            quiet = self.serve_turn(port, quiet)?;
            left -= 1;
            if self.has_ended(quiet) {
                return Ok(Served::Ended);
            }
        }
        Ok(Served::OpenTurns)
    }

    /// From now on the run is of any clients; one that isn't begins anew. At `Err` nothing has changed.
    fn begin_to_serve(&mut self, alloc: Global) -> Result<(), NoMemory>
        ensures begun { OnOk result (self.new.begun ≡ served_beginning self.old.begun) }
        ensures events { OnOk result (self.new.events ≡ served_before self.old.begun.clients self.old.events) }
        ensures err { OnErr result (Stays self.old self.new) }
    {
        if let Clients::One = self.begun.clients {
            let devices = self.begun.begin(alloc, &self.index)?;
            let line = Line::new(alloc, self.begun.tunnel, devices)?;
            let counts = Counts::new(alloc, self.begun.tunnel)?;
            self.begun.clients = Clients::Any;
            self.events = Events::new(alloc);
            self.line = line;
            self.counts = counts;
            self.owed = Owing::new(alloc);
        }
        Ok(())
    }

    /// Whether a channel was made, none is open, and ten turns in a row were quiet.
    fn has_ended(&self, quiet: u8) -> bool
        ensures { (items : List PortItem) → CountsQuiet quiet items → (IsTrue result ↔ HasEnded (world self.now).tunnel.gateway items) }
    {
        let is_left = (self.line.made() > 0) & !self.line.has_channel();
        (quiet == QUIET_TURNS) & is_left
    }

    /// One turn; how many in a row were quiet now, ten where there were more.
    fn serve_turn<P: Port>(&mut self, port: &mut P, quiet: u8) -> Result<u8, Broken>
        requires serves { self.old.begun.clients ≡ Any }
        requires most { quiet ≤ quiet_turns }
        ensures turned { IfOk result (λ now_quiet. Turned quiet now_quiet self.old self.new (P.story port.old) (P.story port.new)) }
        ensures most { IfOk result (λ now_quiet. now_quiet ≤ quiet_turns) }
        ensures err { OnErr result (StopsTurn self.old self.new (P.story port.old) (P.story port.new)) }
        ensures cause { IfErr result (λ why. StandsAt why (seen self.new)) }
        ensures counts { P.faults port.new ≡ after_turns result (P.faults port.old) }
    {
        let mut into = [0; 512];
        match port.take(&mut into, QUIET_MS)? {
            PortPolled::Got { len, from } => {
                self.send_from(from, &into[..len])?;
                self.go_on_for(port, 0)?;
                Ok(0)
            }
            PortPolled::Quiet => {
                self.go_on_for(port, QUIET_MS)?;
                Ok((quiet + 1).min(QUIET_TURNS))
            }
        }
    }

    /// The line goes on for so many milliseconds, or to the last time where that comes before, and the port is given what its clients get.
    fn go_on_for<P: Port>(&mut self, port: &mut P, wait: u32) -> Result<(), Broken>
        requires { self.old.begun.clients ≡ Any }
        ensures plays { OnOk result (PlaysFor wait self.old self.new (P.story port.old) (P.story port.new)) }
        ensures err { OnErr result (StopsPlaying self.old self.new (P.story port.old) (P.story port.new)) }
        ensures cause { IfErr result (λ why. StandsAt why (seen self.new)) }
        ensures counts { P.faults port.new ≡ after_turns result (P.faults port.old) }
    {
        let left = self.before_end(wait);
        self.play(port, left)?;
        if left < wait {
            Err(Broken::AtEnd)
        } else {
            Ok(())
        }
    }

    /// The line goes on for so many milliseconds, and the port is given what its clients get.
    fn play<P: Port>(&mut self, port: &mut P, wait: u32) -> Result<(), Broken>
        requires serves { self.old.begun.clients ≡ Any }
        requires time { now (world self.old) + wait ≤ last_time }
        ensures plays { OnOk result (PlaysFor wait self.old self.new (P.story port.old) (P.story port.new)) }
        ensures err { OnErr result (StopsPlaying self.old self.new (P.story port.old) (P.story port.new)) }
        ensures cause { IfErr result (λ why. StandsAt why (seen self.new)) }
        ensures counts { P.faults port.new ≡ after_turns result (P.faults port.old) }
    {
        let mut left = wait;
        loop {
            self.few();
            match self.turn(left)? {
                Turn::Got(letter) => port.give(letter.to as u32, letter.octets.as_slice())?,
                Turn::Went => {}
                Turn::Passed(ms) => left -= ms,
                Turn::Quiet => return Ok(()),
            }
        }
    }
}
