//! The simulated bus is driven: its run is called. A fault of a call is still to be counted.

ghost use Rattle.std.specs.Prelude.{◌≡◌, ◌≢◌, OnErr, OnOk};
ghost use Rattle.line_model.specs.Polled.{PollsSo, after_call, after_link_fault, none_failed};
ghost use Rattle.address_world.specs.AddressWorld.{Send, Renew};
ghost use Rattle.address_sim.specs.Driven.{FailsOut};
ghost use Rattle.address_sim.specs.Told.{happened, story, time};

use crate::bus::{AddressBus, take_run};
use crate::poll::fill;
use line_model::{LinkFault, Polled};

impl AddressBus {
    /// The client sends a datagram. At `Err` nothing has happened.
    pub(crate) fn send_to_run(&mut self, octets: &[u8]) -> Result<(), LinkFault>
        ensures went { OnOk result (self.new.run ≡ happened self.old.run (Send octets.now)) }
        ensures err { OnErr result (self.new.run ≡ self.old.run) }
        ensures out { FailsOut result self.new.run }
        ensures faults { self.new.faults ≡ self.old.faults }
    {
        let mut run = take_run(self.alloc, &mut self.run)?;
        let sent = run.send(octets);
        self.run = Some(run);
        sent?;
        Ok(())
    }

    /// The client takes the next endpoint. At `Err` nothing has happened.
    pub(crate) fn renew_run(&mut self) -> Result<(), LinkFault>
        ensures went { OnOk result (self.new.run ≡ happened self.old.run Renew) }
        ensures err { OnErr result (self.new.run ≡ self.old.run) }
        ensures out { FailsOut result self.new.run }
        ensures faults { self.new.faults ≡ self.old.faults }
    {
        let mut run = take_run(self.alloc, &mut self.run)?;
        let renewed = run.renew();
        self.run = Some(run);
        renewed?;
        Ok(())
    }

    /// All goes on until the client gets a datagram or the wait is over. Only where that would pass the last time of 64 bits does it fail otherwise than for want
    /// of memory.
    pub(crate) fn poll_run(
        &mut self,
        into: &mut [u8; 512],
        wait_ms: u32,
    ) -> Result<Polled, LinkFault>
        ensures polled { PollsSo result into.new wait_ms (time self.new.run) (story self.old.run) (story self.new.run) }
        ensures begun { self.new.run.begun ≡ self.old.run.begun }
        ensures out { FailsOut result self.new.run }
        ensures faults { self.new.faults ≡ self.old.faults }
    {
        let mut run = take_run(self.alloc, &mut self.run)?;
        if u64::from(wait_ms) > u64::MAX - run.now() {
            self.run = Some(run);
            return Err(LinkFault::Failed);
        }
        let polled = run.poll(wait_ms);
        self.run = Some(run);
        match polled? {
            Some(octets) => Ok(Polled::Got(fill(into, &octets))),
            None => Ok(Polled::Quiet),
        }
    }

    /// What a call answers behind one that failed, or found no memory: it is refused, and counted as one that failed.
    pub(crate) fn refuse(&mut self) -> LinkFault
        requires { self.old.faults ≢ none_failed }
        ensures run { self.new.run ≡ self.old.run }
        ensures counts { self.new.faults ≡ after_link_fault result self.old.faults }
    {
        self.faults.fail();
        LinkFault::Failed
    }

    /// What a call answers: where it failed, or found no memory, that is counted.
    pub(crate) fn answer<T>(&mut self, came: Result<T, LinkFault>) -> Result<T, LinkFault>
        requires { FailsOut came self.old.run }
        ensures same { result ≡ came }
        ensures run { self.new.run ≡ self.old.run }
        ensures counts { self.new.faults ≡ after_call result self.old.faults }
    {
        self.faults.count(came)
    }
}
