//! The simulated line as a link that tells its start and its events.

use crate::bus::SimBus;
use line_model::{Link, LinkFault, Polled};

impl Link for SimBus {
    ghost use Rattle.std.specs.Prelude.{length};
    ghost use Rattle.bus_sim.specs.Loaded.{BusNow};
    ghost use Rattle.bus_sim.specs.RunNow.{script, story, time};

    ghost story = { λ (b : BusNow). story b.run };

    ghost script = { λ (b : BusNow). script b.run };

    ghost clock = { λ (b : BusNow). time b.run };

    ghost place = { λ (b : BusNow). length b.run.events };

    ghost faults = { λ (b : BusNow). b.faults };

    fn send(&mut self, octets: &[u8]) -> Result<(), LinkFault> {
        if !self.is_sound() {
            return Err(self.refuse());
        }
        match self.send_to_run(octets) {
            Ok(()) => Ok(()),
            Err(stopped) => Err(self.fault_of(stopped)),
        }
    }

    fn renew(&mut self) -> Result<(), LinkFault> {
        if !self.is_sound() {
            return Err(self.refuse());
        }
        match self.renew_run() {
            Ok(()) => Ok(()),
            Err(stopped) => Err(self.fault_of(stopped)),
        }
    }

    fn poll(&mut self, into: &mut [u8; 512], wait_ms: u32) -> Result<Polled, LinkFault> {
        if !self.is_sound() {
            return Err(self.refuse());
        }
        match self.poll_run(into, wait_ms) {
            Ok(polled) => Ok(polled),
            Err(stopped) => Err(self.fault_of(stopped)),
        }
    }

    fn now(&self) -> u64 {
        self.time()
    }

    fn at(&self) -> u64 {
        self.events()
    }
}
