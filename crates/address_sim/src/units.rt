//! The units on the bus.

ghost use Rattle.std.specs.List.{list_any};
ghost use Rattle.std.specs.Prelude.{◌==◌, ◌||◌, ◌≡◌, ◌≢◌, ℕ, suc, ◌^◌, ◌<◌, [], ◌∷◌, List as Seq, length, map, IfOk, IfSome, IfNone, slice_get, Some, if◌then◌else◌};
ghost use Rattle.knx_model.specs.declared.frames.cemi.Ldata.{Ldata as Frame};
ghost use Rattle.line_model.specs.World.{AtGateway as Hears};
ghost use Rattle.address_world.specs.AddressWorld.{AddressEvent, Respond, UnitState, all_get, broadcast, changed, gets_broadcast, has_address, oldest_at, response, sends};
ghost use Rattle.address_law.specs.Calm.{AllSent};
ghost use Rattle.address_sim.specs.Follows.{responses};
ghost use Rattle.address_sim.specs.Losses.{without};
ghost use Rattle.address_sim.specs.Told.{at_rest};
ghost use Rattle.address_world.specs.Shown.{shown};

use crate::losses::loses_read;
use address_world::{Unit, UnitLoss};
use knx_model::{Apdu, IndAddr, Ldata, NoMemory};
use std::alloc::Global;

/// What a unit responds.
#[derive(Clone, Copy, Drop)]
pub struct Answers {
    /// Whether a response is still to be sent.
    pub due: bool,
    /// How many were sent.
    pub sent: u64,
}

const NO_ANSWERS: Answers = Answers {
    due: false,
    sent: 0,
};

/// The units, in the order of their lines, and what each responds.
#[derive(Drop)]
pub struct Units {
    pub units: Vec<Unit>,
    pub answers: Vec<Answers>,
    pub ghost even: { length units.items ≡ length answers.items },
}

impl Units {
    ghost use Rattle.address_sim.specs.Units.{AreCounted, AreUnits, IsDueAt, IsNotDueAt, state_at};

    /// These units, of which none has responded.
    pub fn new(alloc: Global, units: &[Unit]) -> Result<Units, NoMemory>
        ensures units { IfOk result (λ made. AreUnits made (map at_rest units.now)) }
        ensures counted { IfOk result (λ made. AreCounted made []) }
    {
        let answers = vec![in alloc; NO_ANSWERS; units.len()]?;
        Ok(Units {
            units: Vec::from_slice(alloc, units)?,
            answers,
        })
    }

    /// The units, each as it is shown.
    pub fn shown(&self) -> &[Unit]
        ensures { (states : Seq UnitState) → AreUnits self.now states → result.now ≡ map shown states }
    {
        self.units.as_slice()
    }

    /// Whether a unit has this address.
    pub fn has_address(&self, raw: u16) -> bool
        ensures { (states : Seq UnitState) → AreUnits self.now states → result ≡ has_address raw states }
    {
        self.is_there(raw)
    }

    /// Whether the bus confirms a frame without error.
    pub fn confirms(&self, frame: &Ldata) -> bool
        ensures { (states : Seq UnitState) → AreUnits self.now states → result ≡ (frame.now.group || has_address frame.now.destination states) }
    {
        frame.group || self.has_address(frame.destination)
    }

    fn is_there(&self, raw: u16) -> bool
        ensures { result ≡ list_any (λ u. u.address.raw == raw) self.now.units.items }
    {
        self.units.iter().any(|unit| unit.address.raw == raw)
    }

    /// The first unit that has a response to send: its place, and its address.
    pub fn next_sender(&self) -> Option<(usize, IndAddr)>
        ensures within { IfSome result (λ next. next.0 < length self.now.answers.items) }
        ensures found { IfSome result (λ next. (states : Seq UnitState) → AreUnits self.now states → oldest_at next.0 states ≡ Some (response next.1)) }
        ensures none { IfNone result ((states : Seq UnitState) → AreUnits self.now states → AllSent states) }
    {
        let place = self.first_due()?;
        Some((place, self.units[place].address))
    }

    fn first_due(&self) -> Option<usize>
        ensures within { IfSome result (λ place. place < length self.now.answers.items) }
        ensures due { IfSome result (λ place. IsDueAt (slice_get self.now.answers.items place)) }
        ensures none { IfNone result ((place : ℕ) → IsNotDueAt (slice_get self.now.answers.items place)) }
    {
        for place in 0..self.answers.len() {
            if self.answers[place].due {
                return Some(place);
            }
        }
        None
    }

    /// The number of the next response of the unit at a place, where there were fewer events.
    pub fn next_number(&self, place: usize) -> u64
        requires { place < length self.now.answers.items }
        ensures { (events : Seq AddressEvent) → AreCounted self.now events → length events < 2 ^ 63 → result ≡ suc (responses place events) }
    {
        self.answers[place].sent.saturating_add(1)
    }

    /// The unit at a place sends its response, which is of this number.
    pub fn send(&mut self, place: usize, n: u64)
        requires { place < length self.old.answers.items }
        ensures units { (states : Seq UnitState) → AreUnits self.old states → AreUnits self.new (changed place sends states) }
        ensures counted { (events : Seq AddressEvent) (at : Hears) → AreCounted self.old events → n ≡ suc (responses place events) → AreCounted self.new (Respond place at ∷ events) }
    {
        self.answers[place] = Answers {
            due: false,
            sent: n,
        };
    }

    /// All units get a broadcast, but those for which it is lost. None has a response that isn't sent.
    pub fn get_all(&mut self, service: &Option<Apdu>, losses: &[UnitLoss], n: u64)
        ensures units { (frame : Frame) (states : Seq UnitState) → AreUnits self.old states → AllSent states → service.now ≡ broadcast frame → AreUnits self.new (all_get 0 (without losses.now n) frame states) }
        ensures counted { (events : Seq AddressEvent) → AreCounted self.old events → AreCounted self.new events }
    {
        for place in 0..self.units.len() {
            let lost = loses_read(losses, place, n);
            self.get_unless(lost, place, service);
        }
    }

    /// The unit at a place gets a broadcast, unless it is lost.
    fn get_unless(&mut self, lost: bool, place: usize, service: &Option<Apdu>)
        requires { place < length self.old.units.items }
        ensures here { (frame : Frame) (u : UnitState) → service.now ≡ broadcast frame → state_at self.old place ≡ Some u → u.unsent ≡ [] → state_at self.new place ≡ Some (if lost then u else gets_broadcast frame u) }
        ensures others { (p : ℕ) → p ≢ place → state_at self.new p ≡ state_at self.old p }
        ensures counted { (events : Seq AddressEvent) → AreCounted self.old events → AreCounted self.new events }
        ensures len { length self.new.units.items ≡ length self.old.units.items }
    {
        if !lost {
            self.get(place, service);
        }
    }

    /// The unit at a place gets a broadcast: where it is in programming mode it takes the address of a write, and responds to a read.
    fn get(&mut self, place: usize, service: &Option<Apdu>)
        requires { place < length self.old.units.items }
        ensures here { (frame : Frame) (u : UnitState) → service.now ≡ broadcast frame → state_at self.old place ≡ Some u → u.unsent ≡ [] → state_at self.new place ≡ Some (gets_broadcast frame u) }
        ensures others { (p : ℕ) → p ≢ place → state_at self.new p ≡ state_at self.old p }
        ensures counted { (events : Seq AddressEvent) → AreCounted self.old events → AreCounted self.new events }
        ensures len { length self.new.units.items ≡ length self.old.units.items }
    {
        let unit = self.units[place];
        if !unit.prog {
            return;
        }
        match service {
            Some(Apdu::AddressWrite(address)) => {
                self.units[place] = Unit {
                    address: *address,
                    ..unit
                }
            }
            Some(Apdu::AddressRead) => {
                self.answers[place] = Answers {
                    due: true,
                    ..self.answers[place]
                }
            }
            _ => {}
        }
    }
}
