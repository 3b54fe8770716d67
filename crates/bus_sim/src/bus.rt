//! The simulated line.

ghost use Rattle.std.specs.Prelude.{◌≡◌, ◌↔◌, true, [], IfErr, IfOk, IsTrue, OnErr, OnOk, length, option_copied};
ghost use Rattle.knx_model.specs.ScriptText.{are_script_lines, first_stranger};
ghost use Rattle.line_model.specs.Fresh.{IsFresh};
ghost use Rattle.line_model.specs.Follows.{Follows};
ghost use Rattle.line_model.specs.Legal.{IsLegal};
ghost use Rattle.line_model.specs.Polled.{none_failed};
ghost use Rattle.bus_sim.specs.Begun.{CanLoad, addresses};
ghost use Rattle.bus_sim.specs.Ended.{FailsForCause};
ghost use Rattle.bus_sim.specs.Loaded.{IsWant, PreparedSo, nothing_run};
ghost use Rattle.bus_sim.specs.declared.clients.Clients.TheVariants.{One};
ghost use Rattle.bus_sim.specs.RunNow.{mode, script, start, time, world};

use crate::beginning::Beginning;
use crate::run::Run;
use knx_model::{Image, IndAddr, NoMemory, Refused, ScriptLine, Why};
use line_model::FaultCounts;
use line_sim::Device;
use script_text::Script;
use std::alloc::Global;
use std::marker::Model;

/// A whole line in memory, gateway, bus and devices, which does just what a script says, and nothing before a run is loaded: then it is a line
/// without devices. Contracts see what it began with, its events, the newest first, and how many of the calls of its run failed or found no memory.
#[derive(Drop)]
pub struct SimBus {
    pub(crate) alloc: Global,
    pub(crate) run: Option<Run>,
    pub(crate) faults: FaultCounts,
}

impl Model for SimBus {
    ghost use Rattle.bus_sim.specs.Ended.{FailsForCause};
    ghost use Rattle.bus_sim.specs.Loaded.{BusNow, bus_of};

    ghost Value = { BusNow };

    ghost view = { λ b. record { run = bus_of b.run; faults = b.faults } };

    ghost invariant = { λ b. FailsForCause b.faults (bus_of b.run) };
}

impl SimBus {
    ghost use Rattle.bus_sim.specs.Loaded.{IsRefusedFor};

    /// A line without devices on which nothing has happened. It takes no memory.
    pub fn empty(alloc: Global) -> SimBus
        ensures { result ≡ record { run = nothing_run; faults = none_failed } }
    {
        SimBus {
            alloc,
            run: None,
            faults: FaultCounts::none(),
        }
    }

    /// Begins a new run, of one client: the tunnel's address, the devices on the bus, each loaded with an image or blank, and the script, by whose first words some
    /// have no power or take standard frames alone. Refused is, as NoDevice, the first line of the script that names a device which isn't
    /// listed. At `Err` nothing has changed.
    pub fn load(
        &mut self,
        alloc: Global,
        tunnel: IndAddr,
        devices: &[(IndAddr, Option<Image>)],
        script: &Script,
    ) -> Result<(), Refused>
        requires { CanLoad tunnel devices.now }
        ensures loaded { OnOk result (self.new.run ≡ record { begun = record { clients = One; tunnel = tunnel; devices = devices.now; script = script.now.lines }; events = [] }) }
        ensures known { OnOk result (first_stranger (addresses devices.now) script.now.lines ≡ None) }
        ensures refused { IfErr result (IsRefusedFor (first_stranger (addresses devices.now) script.now.lines)) }
        ensures err { OnErr result (self.new ≡ self.old) }
        ensures faults { OnOk result (self.new.faults ≡ none_failed) }
    {
        match prepare(alloc, tunnel, devices, script.lines.as_slice()) {
            Ok(Prepared::Begins(run)) => {
                self.run = Some(run);
                self.faults = FaultCounts::none();
                Ok(())
            }
            Ok(Prepared::Stranger(refused)) => Err(refused),
            Err(want) => Err(want_of(want)),
        }
    }

    /// The device at an address; None exactly where it isn't on the bus.
    pub fn state(&self, device: IndAddr) -> Option<&Device>
        ensures { option_copied result ≡ (world self.now.run).devices device.raw }
    {
        self.run.as_ref()?.line.device(device.raw)
    }

    /// What holds of each run, for a caller to know: its start is fresh, its events are legal and follow the script, and no call of it failed before
    /// its end, but where it serves, and behind one that found no memory. It does nothing.
    pub fn keeps(&self)
        ensures fresh { IsFresh (start self.now.run) }
        ensures legal { IsLegal (mode self.now.run) (start self.now.run) self.now.run.events }
        ensures follows { Follows (script self.now.run) (mode self.now.run) (start self.now.run) self.now.run.events }
        ensures faults { FailsForCause self.now.faults self.now.run }
    {
        if let Some(run) = &self.run {
            run.keeps();
        }
    }

    /// Whether no call of the run failed yet, and none found no memory.
    pub(crate) fn is_sound(&self) -> bool
        ensures { IsTrue result ↔ self.now.faults ≡ none_failed }
    {
        self.faults.is_none()
    }

    /// The time of the line, in milliseconds.
    pub(crate) fn time(&self) -> u64
        ensures { result ≡ time self.now.run }
    {
        match &self.run {
            Some(run) => run.now(),
            None => 0,
        }
    }

    /// How many events there were.
    pub(crate) fn events(&self) -> u64
        ensures { result ≡ length self.now.run.events }
    {
        match &self.run {
            Some(run) => run.events.len(),
            None => 0,
        }
    }
}

/// A run that can begin, or the refusal of the first line that names a stranger.
#[derive(Drop)]
enum Prepared {
    Begins(Run),
    Stranger(Refused),
}

fn prepare(
    alloc: Global,
    tunnel: IndAddr,
    devices: &[(IndAddr, Option<Image>)],
    script: &[ScriptLine],
) -> Result<Prepared, NoMemory>
    requires can { CanLoad tunnel devices.now }
    requires lines { are_script_lines script.now ≡ true }
    ensures { IfOk result (λ prepared. PreparedSo prepared (record { clients = One; tunnel = tunnel; devices = devices.now; script = script.now })) }
{
    let begun = Beginning::of(alloc, tunnel, devices, script)?;
    match begun.stranger(alloc)? {
        Some(refused) => Ok(Prepared::Stranger(refused)),
        None => Ok(Prepared::Begins(Run::begin(alloc, begun)?)),
    }
}

/// Want of memory, told of no line.
fn want_of(want: NoMemory) -> Refused
    ensures { IsWant result result.why }
{
    Refused {
        line: 0,
        why: Why::NoMemory(want),
    }
}
