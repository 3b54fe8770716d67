//! The simulated line is driven: its run is called, and the calls that fail are counted.

ghost use Rattle.std.specs.Prelude.{◌≡◌, ◌≢◌, ◌⊎◌, ℕ, IfErr, IfOk, OnErr, OnOk};
ghost use Rattle.line_model.specs.Polled.{PollsAs, after_link_fault, none_failed, one_failed, one_wanting};
ghost use Rattle.line_model.specs.World.{Send, Renew};
ghost use Rattle.bus_sim.specs.Ended.{IsAtEnd, IsServing, StopsFor};
ghost use Rattle.bus_sim.specs.Loaded.{bus_of, nothing_run};
ghost use Rattle.bus_sim.specs.Polls.{StopsRun};
ghost use Rattle.bus_sim.specs.RunNow.{happened, seen, story, time};
ghost use Rattle.bus_sim.specs.Serving.{FailsAt, after_broken};
ghost use Rattle.bus_sim.specs.declared.clients.Clients.TheVariants.{One};
ghost use Rattle.bus_sim.specs.declared.stopped.Broken.TheVariants.{AtEnd};

use crate::beginning::Beginning;
use crate::bus::SimBus;
use crate::clients::Clients;
use crate::run::Run;
use crate::stopped::{Broken, Stopped};
use knx_model::{List, NoMemory};
use line_model::{LinkFault, Polled, PortFault};
use std::alloc::Global;
use tunnel_sim::DEFAULT_TUNNEL;

impl SimBus {
    /// The client sends a datagram. At `Err` nothing has happened.
    pub(crate) fn send_to_run(&mut self, octets: &[u8]) -> Result<(), Stopped>
        ensures one { OnOk result (self.old.run.begun.clients ≡ One) }
        ensures went { OnOk result (self.new.run ≡ happened self.old.run (Send octets.now)) }
        ensures err { OnErr result (self.new.run ≡ self.old.run) }
        ensures cause { IfErr result (λ why. StopsFor why self.new.run) }
        ensures faults { self.new.faults ≡ self.old.faults }
    {
        let mut run = take_run(self.alloc, &mut self.run)?;
        let sent = run.send(octets);
        self.run = Some(run);
        sent
    }

    /// The client takes the next endpoint. At `Err` nothing has happened.
    pub(crate) fn renew_run(&mut self) -> Result<(), Stopped>
        ensures one { OnOk result (self.old.run.begun.clients ≡ One) }
        ensures went { OnOk result (self.new.run ≡ happened self.old.run Renew) }
        ensures err { OnErr result (self.new.run ≡ self.old.run) }
        ensures cause { IfErr result (λ why. StopsFor why self.new.run) }
        ensures faults { self.new.faults ≡ self.old.faults }
    {
        let mut run = take_run(self.alloc, &mut self.run)?;
        let renewed = run.renew();
        self.run = Some(run);
        renewed
    }

    /// The line goes on, until the client gets a datagram or the wait is over.
    pub(crate) fn poll_run(&mut self, into: &mut [u8; 512], wait_ms: u32) -> Result<Polled, Stopped>
        ensures polled { IfOk result (λ polled. PollsAs polled into.new wait_ms (time self.new.run) (story self.old.run) (story self.new.run)) }
        ensures one { OnOk result (self.old.run.begun.clients ≡ One) }
        ensures err { OnErr result (StopsRun wait_ms self.old.run self.new.run) }
        ensures cause { IfErr result (λ why. StopsFor why self.new.run) }
        ensures begun { self.new.run.begun ≡ self.old.run.begun }
        ensures faults { self.new.faults ≡ self.old.faults }
    {
        let mut run = take_run(self.alloc, &mut self.run)?;
        let polled = run.poll(into, wait_ms);
        run.in_time();
        self.run = Some(run);
        polled
    }

    /// What a call answers that stopped so: the link failed, or found no memory, once more.
    pub(crate) fn fault_of(&mut self, stopped: Stopped) -> LinkFault
        requires { StopsFor stopped self.old.run }
        ensures run { self.new.run ≡ self.old.run }
        ensures counts { self.new.faults ≡ after_link_fault result self.old.faults }
    {
        match stopped {
            Stopped::NoMemory(want) => {
                self.wants();
                LinkFault::NoMemory(want)
            }
            Stopped::AtEnd | Stopped::Serves => {
                self.fails();
                LinkFault::Failed
            }
        }
    }

    /// What a call answers behind one that failed, or found no memory: it is refused, and counted as one that failed.
    pub(crate) fn refuse(&mut self) -> LinkFault
        requires { self.old.faults ≢ none_failed }
        ensures run { self.new.run ≡ self.old.run }
        ensures counts { self.new.faults ≡ after_link_fault result self.old.faults }
    {
        self.faults.fail();
        LinkFault::Failed
    }

    /// What a serving answers that broke off so.
    pub(crate) fn port_fault_of(&mut self, broken: Broken) -> PortFault
        requires { broken ≡ AtEnd → IsAtEnd self.old.run }
        ensures run { self.new.run ≡ self.old.run }
        ensures counts { (before after : ℕ) → after ≡ after_broken broken before → FailsAt result before after self.old.faults self.new.faults self.new.run }
    {
        match broken {
            Broken::NoMemory(want) => PortFault::NoMemory(want),
            Broken::Port(fault) => fault,
            Broken::AtEnd => {
                self.fails();
                PortFault::Failed
            }
        }
    }

    /// One more call failed, since the run is at its end or serves.
    fn fails(&mut self)
        requires { IsAtEnd self.old.run ⊎ IsServing self.old.run }
        ensures run { self.new.run ≡ self.old.run }
        ensures counts { self.new.faults ≡ one_failed self.old.faults }
    {
        self.faults.fail();
    }

    /// One more call found no memory.
    fn wants(&mut self)
        ensures run { self.new.run ≡ self.old.run }
        ensures counts { self.new.faults ≡ one_wanting self.old.faults }
    {
        self.faults.want();
    }
}

/// The run to be driven, which begins where none was loaded. Until it is put back there is none.
pub fn take_run(alloc: Global, run: &mut Option<Run>) -> Result<Run, NoMemory>
    ensures run { IfOk result (λ taken. seen taken ≡ bus_of run.old) }
    ensures err { OnErr result (bus_of run.new ≡ bus_of run.old) }
{
    match run.take() {
        Some(run) => Ok(run),
        None => begun_empty(alloc),
    }
}

/// A run of a line without devices.
fn begun_empty(alloc: Global) -> Result<Run, NoMemory>
    ensures { IfOk result (λ run. seen run ≡ nothing_run) }
{
    Run::begin(
        alloc,
        Beginning {
            clients: Clients::One,
            tunnel: DEFAULT_TUNNEL,
            devices: List::new(alloc),
            script: List::new(alloc),
        },
    )
}
