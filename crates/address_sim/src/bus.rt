//! The simulated bus.

ghost use Rattle.std.specs.Prelude.{◌≡◌, ◌↔◌, [], IfOk, IsTrue, OnErr, OnOk, length};
ghost use Rattle.address_world.specs.AddressLegal.{IsFresh, IsLegal};
ghost use Rattle.address_world.specs.AddressStory.{record_of};
ghost use Rattle.line_model.specs.Polled.{none_failed};
ghost use Rattle.address_sim.specs.Driven.{FailsForCause, bus_of, nothing_run};
ghost use Rattle.address_sim.specs.Follows.{FollowsText};
ghost use Rattle.address_sim.specs.Told.{start, time, units_now};
ghost use Rattle.address_sim.specs.Turns.{seen};

use crate::run::{Beginning, Run};
use address_world::{Unit, UnitScript};
use knx_model::{IndAddr, List, NoMemory};
use line_model::FaultCounts;
use std::alloc::Global;
use std::marker::Model;
use tunnel_sim::DEFAULT_TUNNEL;

/// A bus of units behind a tunnel, which does just what its text says, and before one is loaded has no units. Contracts see what it began with, its
/// events, the newest first, and how many of its calls failed or found no memory.
#[derive(Drop)]
pub struct AddressBus {
    pub(crate) alloc: Global,
    pub(crate) run: Option<Run>,
    pub(crate) faults: FaultCounts,
}

impl Model for AddressBus {
    ghost use Rattle.address_sim.specs.Driven.{BusNow, FailsForCause, bus_of};

    ghost Value = { BusNow };

    ghost view = { λ b. record { run = bus_of b.run; faults = b.faults } };

    ghost invariant = { λ b. FailsForCause b.faults (bus_of b.run) };
}

impl AddressBus {
    /// A bus without units on which nothing has happened. It takes no memory.
    pub fn empty(alloc: Global) -> AddressBus
        ensures { result ≡ record { run = nothing_run; faults = none_failed } }
    {
        AddressBus {
            alloc,
            run: None,
            faults: FaultCounts::none(),
        }
    }

    /// Begins anew: the tunnel's address, the units and what is lost. At `Err` nothing has changed.
    pub fn load(&mut self, tunnel: IndAddr, text: &UnitScript) -> Result<(), NoMemory>
        ensures loaded { OnOk result (self.new ≡ record { run = record { begun = record { tunnel = tunnel; units = text.now.units; losses = text.now.losses }; events = [] }; faults = none_failed }) }
        ensures err { OnErr result (self.new ≡ self.old) }
    {
        let begun = Beginning {
            tunnel,
            units: copied(self.alloc, &text.units)?,
            losses: copied(self.alloc, &text.losses)?,
        };
        self.run = Some(Run::begin(self.alloc, begun)?);
        self.faults = FaultCounts::none();
        Ok(())
    }

    /// The units as they now are, in the order of their lines.
    pub fn units(&self) -> &[Unit]
        ensures { result.now ≡ units_now self.now.run }
    {
        match &self.run {
            Some(run) => run.units(),
            None => &[],
        }
    }

    /// What holds of each run, for a caller to know: its start is fresh, its events are legal, nothing is lost but what the text says, and no call of it failed
    /// before its end, but behind one that found no memory. It does nothing.
    pub fn keeps(&self)
        ensures fresh { IsFresh (start self.now.run) }
        ensures legal { IsLegal (start self.now.run) self.now.run.events }
        ensures follows { FollowsText self.now.run.begun.losses (start self.now.run) self.now.run.events }
        ensures faults { FailsForCause self.now.faults self.now.run }
    {
        if let Some(run) = &self.run {
            run.keeps();
        }
    }

    /// Whether no call failed yet, and none found no memory.
    pub(crate) fn is_sound(&self) -> bool
        ensures { IsTrue result ↔ self.now.faults ≡ none_failed }
    {
        self.faults.is_none()
    }

    /// The time, in milliseconds.
    pub(crate) fn time(&self) -> u64
        ensures { result ≡ time self.now.run }
    {
        match &self.run {
            Some(run) => run.now(),
            None => 0,
        }
    }

    /// How many entries its record has.
    pub(crate) fn entries(&self) -> u64
        ensures { result ≡ length (record_of (start self.now.run) self.now.run.events) }
    {
        match &self.run {
            Some(run) => run.entries(),
            None => 0,
        }
    }
}

fn copied<T: Copy + Drop>(alloc: Global, items: &List<T>) -> Result<List<T>, NoMemory>
    ensures { IfOk result (λ copy. copy ≡ items.now) }
{
    Ok(List::from_vec(Vec::from_slice(alloc, items.as_slice())?))
}

/// The run to be driven, which begins where none was loaded. Until it is put back there is none.
pub fn take_run(alloc: Global, run: &mut Option<Run>) -> Result<Run, NoMemory>
    ensures run { IfOk result (λ taken. seen taken ≡ bus_of run.old) }
    ensures err { OnErr result (bus_of run.new ≡ bus_of run.old) }
{
    match run.take() {
        Some(run) => Ok(run),
        None => Run::begin(
            alloc,
            Beginning {
                tunnel: DEFAULT_TUNNEL,
                units: List::new(alloc),
                losses: List::new(alloc),
            },
        ),
    }
}
