//! A frame to a group comes to all devices or, where memory lacks, to none: first what it brings to each is made, then each gets it.

ghost use Rattle.std.specs.Prelude.{◌≡◌, ◌≢◌, ℕ, ◌<◌, IfOk, OnOk, OnErr, length, option_to_list, slice_index_or, true};
ghost use Rattle.device_sim.specs.declared.brought.Brought.TheVariants.{NotTaken};
ghost use Rattle.line_sim.specs.Places.{ComesTo, device_in};
ghost use Rattle.line_sim.specs.Group.{IsBroughtAt, AreBrought, brought_there};

use super::{Devices, PLACES, mark};
use device_sim::Brought;
use knx_model::{Ldata, NoMemory};
use std::alloc::Global;

impl Devices {
    /// Every device but the one left out takes a frame to a group. At `Err` nothing has changed.
    pub(super) fn take_by_all(
        &mut self,
        alloc: Global,
        frame: &Ldata,
        without: Option<u16>,
    ) -> Result<(), NoMemory>
        requires { frame.now.group ≡ true }
        ensures line { self.new.line ≡ self.old.line }
        ensures next { OnOk result ((now : ℕ) → ComesTo self.old now (option_to_list without) frame.now self.new) }
        ensures err { OnErr result (self.new ≡ self.old) }
    {
        let brought = self.brought_to_all(alloc, frame, without)?;
        self.bring_to_all(frame, brought);
        Ok(())
    }

    /// What a frame to a group would bring to each place.
    fn brought_to_all(
        &self,
        alloc: Global,
        frame: &Ldata,
        without: Option<u16>,
    ) -> Result<Vec<Brought>, NoMemory>
        requires { frame.now.group ≡ true }
        ensures { IfOk result (λ brought. AreBrought self.now (option_to_list without) frame.now brought.items) }
    {
        let mut brought = Vec::with_capacity(alloc, PLACES)?;
        for part in 0..PLACES {
            brought.push(self.brought_at(alloc, part, frame, without)?)?;
        }
        Ok(brought)
    }

    /// What it would bring to one place.
    fn brought_at(
        &self,
        alloc: Global,
        part: usize,
        frame: &Ldata,
        without: Option<u16>,
    ) -> Result<Brought, NoMemory>
        requires group { frame.now.group ≡ true }
        requires part { part < 256 }
        ensures { IfOk result (λ brought. IsBroughtAt self.now (option_to_list without) frame.now part brought) }
    {
        let address = u16::from(self.line) * 256 + part as u16;
        if without == Some(address) {
            return Ok(Brought::NotTaken);
        }
        match &self.places[part] {
            Some(device) => device.brought(alloc, frame),
            None => Ok(Brought::NotTaken),
        }
    }

    /// Each place gets what was brought to it.
    fn bring_to_all(&mut self, frame: &Ldata, brought: Vec<Brought>)
        requires { length brought.items ≡ 256 }
        ensures line { self.new.line ≡ self.old.line }
        ensures each { (part : ℕ) → part < 256
            → device_in self.new.places part ≡ brought_there frame.now (device_in self.old.places part) (slice_index_or brought.items part NotTaken) }
    {
        let mut left = brought;
        for part in (0..PLACES).rev() {
            if let Some(one) = left.pop() {
                self.bring_at(part, frame, one);
            }
        }
    }

    /// One place gets what was brought to it.
    fn bring_at(&mut self, part: usize, frame: &Ldata, brought: Brought)
        requires { part < 256 }
        ensures line { self.new.line ≡ self.old.line }
        ensures here { device_in self.new.places part ≡ brought_there frame.now (device_in self.old.places part) brought }
        ensures others { (p : ℕ) → p ≢ part → device_in self.new.places p ≡ device_in self.old.places p }
    {
        if let Some(device) = &mut self.places[part] {
            device.bring(frame, brought);
            mark(&mut self.busy, part, device);
        }
    }
}
