//! The simulated bus as a link that tells its record, and the world behind it.

use crate::bus::AddressBus;
use address_world::AddressLink;
use line_model::{Link, LinkFault, Polled};

impl Link for AddressBus {
    ghost use Rattle.std.specs.Prelude.{length};
    ghost use Rattle.address_world.specs.AddressStory.{record_of};
    ghost use Rattle.address_sim.specs.Driven.{BusNow};
    ghost use Rattle.address_sim.specs.Stays.{lines_of};
    ghost use Rattle.address_sim.specs.Told.{start, story, time};

    ghost story = { λ (b : BusNow). story b.run };

    ghost script = { λ (b : BusNow). lines_of b.run.begun };

    ghost clock = { λ (b : BusNow). time b.run };

    ghost place = { λ (b : BusNow). length (record_of (start b.run) b.run.events) };

    ghost faults = { λ (b : BusNow). b.faults };

    fn send(&mut self, octets: &[u8]) -> Result<(), LinkFault> {
        if !self.is_sound() {
            return Err(self.refuse());
        }
        let sent = self.send_to_run(octets);
        self.answer(sent)
    }

    fn renew(&mut self) -> Result<(), LinkFault> {
        if !self.is_sound() {
            return Err(self.refuse());
        }
        let renewed = self.renew_run();
        self.answer(renewed)
    }

    fn poll(&mut self, into: &mut [u8; 512], wait_ms: u32) -> Result<Polled, LinkFault> {
        if !self.is_sound() {
            return Err(self.refuse());
        }
        let polled = self.poll_run(into, wait_ms);
        self.answer(polled)
    }

    fn now(&self) -> u64 {
        self.time()
    }

    fn at(&self) -> u64 {
        self.entries()
    }
}

impl AddressLink for AddressBus {
    ghost use Rattle.address_sim.specs.Driven.{BusNow};
    ghost use Rattle.address_sim.specs.Told.{told};

    ghost told = { λ (b : BusNow). told b.run };

    fn tells(&self) {
        self.keeps();
    }
}
