//! The client's frames go over the bus.

ghost use Rattle.std.specs.Prelude.{◌≡◌, ℕ, List, Some, OnOk, OnErr, is_some, nat_lt, not, ◌&&◌, true, option_to_list};
ghost use Rattle.knx_model.specs.declared.device.WriteKind.TheVariants.{Memory};
ghost use Rattle.knx_model.specs.Device.{written_front};
ghost use Rattle.knx_model.specs.DeviceFrames.{worn_octets};
ghost use Rattle.line_model.specs.World.{Bus, BusTorn, BusWorn, is_among, next_frame};
ghost use Rattle.line_model.specs.Deliveries.{worn_if};
ghost use Rattle.line_sim.specs.Line.{LineNow, effect_due, write_due};
ghost use Rattle.bus_sim.specs.RunNow.{NothingCalled, seen};
ghost use Rattle.bus_sim.specs.Went.{Carries, Stays, Went, IsRight, world};
ghost use Rattle.line_model.specs.StartOf.{line_of};
ghost use Rattle.bus_sim.specs.Choices.{carried, carried_so, is_lost_for, written_so, CanGo};

use crate::called::{connection_closes, frame_again};
use crate::counts::Met;
use crate::happened::Happened;
use crate::owed::Caused;
use crate::room::{make_room, make_room_for};
use crate::run::Run;
use knx_model::{IndAddr, Ldata, NoMemory, WriteKind};

/// How the client's frame goes over the bus.
#[derive(Clone, Copy, Drop)]
pub enum Carriage {
    /// Whole, lost for one device or for none.
    Whole(Option<u16>),
    /// The device that it is for loses its power in the write, after so many octets.
    Torn(u32),
    /// That device's memory is worn.
    Worn,
}

impl Run {
    /// The client's frame goes over the bus as the script wants it, and after a torn write power returns. At `Err` nothing has happened.
    pub fn carry(&mut self, frame: &Ldata) -> Result<(), NoMemory>
        requires due { Some frame.now ≡ next_frame (world self.old) }
        requires free { NothingCalled (seen self.old) }
        ensures carries { OnOk result (Carries frame.now self.old (carried self.old frame.now) self.new) }
        ensures right { OnOk result (IsRight self.old (carried self.old frame.now)) }
        ensures err { OnErr result (Stays self.old self.new) }
    {
        match self.carriage(frame) {
            Carriage::Whole(lost) => self.bus(frame, lost),
            Carriage::Torn(k) => self.bus_torn(frame, k),
            Carriage::Worn => self.bus_worn(frame),
        }
    }

    /// How the script wants it carried.
    fn carriage(&self, frame: &Ldata) -> Carriage
        requires { Some frame.now ≡ next_frame (world self.now) }
        ensures so { carried_so result self.now.line ≡ carried self.now frame.now }
        ensures can { CanGo result self.now.line }
    {
        if frame.group {
            return Carriage::Whole(None);
        }
        let device = frame.destination;
        if self.is_lost_for(device) {
            return Carriage::Whole(Some(device));
        }
        match self.line.would_write() {
            Some(kind) => self.written(device, kind),
            None => Carriage::Whole(None),
        }
    }

    /// Whether the next frame for a device alone is lost for it.
    fn is_lost_for(&self, device: u16) -> bool
        ensures { result ≡ is_lost_for self.now device }
    {
        let n = self.counts.of(device).to.saturating_add(1);
        self.index.loses_to(IndAddr { raw: device }, n)
    }

    /// How the next write of a device goes: a cut goes before worn memory.
    fn written(&self, device: u16, kind: WriteKind) -> Carriage
        requires { line_of device ≡ line_of self.now.begun.tunnel.raw }
        ensures so { carried_so result self.now.line ≡ written_so self.now device kind (effect_due self.now.line) }
        ensures can { Some kind ≡ write_due self.now.line → CanGo result self.now.line }
    {
        let n = self.counts.of(device).writes.saturating_add(1);
        let device = IndAddr { raw: device };
        match self.index.cuts(device, n) {
            Some(k) => Carriage::Torn(k),
            None => worn_if(self.index.wears(device, n), kind),
        }
    }

    /// It goes whole, lost for one device or for none.
    fn bus(&mut self, frame: &Ldata, lost: Option<u16>) -> Result<(), NoMemory>
        requires due { Some frame.now ≡ next_frame (world self.old) }
        requires free { NothingCalled (seen self.old) }
        requires so { Bus (option_to_list lost) ≡ carried self.old frame.now }
        ensures went { OnOk result (Went self.old (Bus (option_to_list lost)) self.new) }
        ensures right { OnOk result (IsRight self.old (Bus (option_to_list lost))) }
        ensures err { OnErr result (Stays self.old self.new) }
    {
        make_room(&mut self.events, &mut self.owed)?;
        self.line.names();
        let device = frame.destination;
        let comes = comes_to(frame, lost);
        let taken = comes & self.line.would_be_taken();
        let wrote = comes & self.line.would_write().is_some();
        let counts = self.counts.of(device);
        let n = counts.to.saturating_add(1);
        let k = counts.taken.saturating_add(1);
        let first = frame_again(&self.index, device, taken, n);
        let second = connection_closes(&self.index, device, taken, k);
        self.line.bus(self.alloc, lost)?;
        let met = Met {
            to: !frame.group,
            from: false,
            taken,
            wrote,
        };
        self.counts.add(device, met);
        let caused = Caused { first, second };
        self.owed.meet(caused, &self.line, self.begun.clients);
        self.events.push(&Happened::Bus(lost));
        Ok(())
    }

    /// The device that it is for takes it torn, after so many octets of the write, and its power returns at once: nothing comes between.
    fn bus_torn(&mut self, frame: &Ldata, k: u32) -> Result<(), NoMemory>
        requires due { Some frame.now ≡ next_frame (world self.old) }
        requires write { is_some (write_due self.old.line) ≡ true }
        requires free { NothingCalled (seen self.old) }
        requires so { BusTorn (nat_lt 0 k) (written_front (effect_due self.old.line) k) ≡ carried self.old frame.now }
        ensures carries { OnOk result (Carries frame.now self.old (BusTorn (nat_lt 0 k) (written_front (effect_due self.old.line) k)) self.new) }
        ensures right { OnOk result (IsRight self.old (BusTorn (nat_lt 0 k) (written_front (effect_due self.old.line) k))) }
        ensures err { OnErr result (Stays self.old self.new) }
    {
        let octets = self.line.torn_octets(self.alloc, k)?;
        make_room_for(&mut self.events, &mut self.owed, 2)?;
        self.line.names();
        let device = frame.destination;
        let counts = self.counts.of(device);
        let n = counts.to.saturating_add(1);
        let m = counts.taken.saturating_add(1);
        let first = frame_again(&self.index, device, true, n);
        let second = connection_closes(&self.index, device, true, m);
        self.line.bus_torn(k)?;
        self.counts.add(device, WRITTEN);
        let caused = Caused { first, second };
        self.owed.meet(caused, &self.line, self.begun.clients);
        self.events
            .push(&Happened::BusTorn(k > 0, octets.as_slice()));
        self.line.on(device);
        self.owed.wait(&self.line, self.begun.clients);
        self.events.push(&Happened::On(device));
        Ok(())
    }

    /// The device that it is for takes it over worn memory.
    fn bus_worn(&mut self, frame: &Ldata) -> Result<(), NoMemory>
        requires due { Some frame.now ≡ next_frame (world self.old) }
        requires write { write_due self.old.line ≡ Some Memory }
        requires free { NothingCalled (seen self.old) }
        requires so { BusWorn (worn_octets (effect_due self.old.line)) ≡ carried self.old frame.now }
        ensures went { OnOk result (Went self.old (BusWorn (worn_octets (effect_due self.old.line))) self.new) }
        ensures right { OnOk result (IsRight self.old (BusWorn (worn_octets (effect_due self.old.line)))) }
        ensures err { OnErr result (Stays self.old self.new) }
    {
        let octets = self.line.worn_octets();
        make_room(&mut self.events, &mut self.owed)?;
        self.line.names();
        let device = frame.destination;
        let counts = self.counts.of(device);
        let n = counts.to.saturating_add(1);
        let m = counts.taken.saturating_add(1);
        let first = frame_again(&self.index, device, true, n);
        let second = connection_closes(&self.index, device, true, m);
        self.line.bus_worn(self.alloc)?;
        self.counts.add(device, WRITTEN);
        let caused = Caused { first, second };
        self.owed.meet(caused, &self.line, self.begun.clients);
        self.events.push(&Happened::BusWorn(octets.as_slice()));
        Ok(())
    }
}

/// A write that isn't cut: worn where it is a memory write and the memory is worn.
fn worn_if(worn: bool, kind: WriteKind) -> Carriage
    ensures so { (line : LineNow) → carried_so result line ≡ worn_if worn kind (effect_due line) }
    ensures can { (line : LineNow) → Some kind ≡ write_due line → CanGo result line }
{
    match kind {
        WriteKind::Memory if worn => Carriage::Worn,
        _ => Carriage::Whole(None),
    }
}

/// A frame for the device alone, which took it, and it was a write.
const WRITTEN: Met = Met {
    to: true,
    from: false,
    taken: true,
    wrote: true,
};

/// Whether the frame is for one device alone and isn't lost for it.
fn comes_to(frame: &Ldata, lost: Option<u16>) -> bool
    ensures { result ≡ (not frame.now.group && not (is_among (option_to_list lost) frame.now.destination)) }
{
    !frame.group && lost != Some(frame.destination)
}
