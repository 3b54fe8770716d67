//! Frames that come to the devices: one for a device alone finds it by its device part.

ghost use Rattle.std.specs.Prelude.{◌≡◌, [], ◌||◌, IfOk, OnOk, OnErr, Some, false, is_some, nat_lt, option_to_list, true};
ghost use Rattle.knx_model.specs.declared.device.WriteKind.TheVariants.{Memory};
ghost use Rattle.knx_model.specs.Device.{written_front};
ghost use Rattle.knx_model.specs.DeviceFrames.{AreOctets, Torn, Worn, taken_again, worn_octets};
ghost use Rattle.line_model.specs.Counts.{takes_alone, write_of};
ghost use Rattle.line_model.specs.Deliveries.{effect_at};
ghost use Rattle.line_model.specs.World.{Devices as Known, changed, one_takes, takes_it};
ghost use Rattle.line_sim.specs.Places.{AreDevices, ComesTo, device_at, is_taken_by};

use super::{Devices, mark};
use device_sim::Device;
use knx_model::{ApduOctets, Ldata, NoMemory, Octets, Took, WriteKind};
use std::alloc::Global;

impl Devices {
    /// The write of the device at an address that this frame would be now.
    pub fn would_write(&self, address: u16, frame: &Ldata) -> Option<WriteKind>
        ensures { result ≡ write_of (device_at self.now address) (Some frame.now) }
    {
        self.get(address)?.would_write(frame)
    }

    /// Whether a frame is for one device alone, and the device at an address would take it.
    pub fn takes_alone(&self, address: u16, frame: &Ldata) -> bool
        ensures { result ≡ takes_alone (device_at self.now address) (Some frame.now) }
    {
        match self.get(address) {
            Some(device) => !frame.group && matches!(device.took(frame), Took::Taken),
            None => false,
        }
    }

    /// The octets that stand new in memory where power is cut in the write that a frame would be now at the device that it is for, after the
    /// first `k` ones.
    pub fn torn_octets(&self, alloc: Global, frame: &Ldata, k: u32) -> Result<Octets, NoMemory>
        ensures value { IfOk result (λ octets. octets ≡ written_front (effect_at (device_at self.now frame.now.destination) frame.now) k) }
        ensures range { IfOk result AreOctets }
    {
        match self.get(frame.destination) {
            Some(device) => device.torn_octets(alloc, frame, k),
            None => Ok(Octets::new(alloc)),
        }
    }

    /// The octets that worn memory keeps of the write that a frame would be now at the device that it is for.
    pub fn worn_octets(&self, frame: &Ldata) -> ApduOctets
        ensures { result ≡ worn_octets (effect_at (device_at self.now frame.now.destination) frame.now) }
    {
        match self.get(frame.destination) {
            Some(device) => device.worn_octets(frame),
            None => ApduOctets::new(),
        }
    }

    /// A frame comes to every device but the one left out, whole. Whether it is to a group, or the device that it is for took it. At `Err`
    /// nothing has changed.
    pub fn take(
        &mut self,
        alloc: Global,
        frame: &Ldata,
        now: u64,
        without: Option<u16>,
    ) -> Result<bool, NoMemory>
        ensures line { self.new.line ≡ self.old.line }
        ensures next { OnOk result (ComesTo self.old now (option_to_list without) frame.now self.new) }
        ensures confirms { IfOk result (λ confirms. confirms ≡ (frame.now.group || is_taken_by self.old (option_to_list without) frame.now)) }
        ensures err { OnErr result (self.new ≡ self.old) }
    {
        self.names();
        if frame.group {
            self.take_by_all(alloc, frame, without)?;
            return Ok(true);
        }
        if without == Some(frame.destination) {
            return Ok(false);
        }
        self.take_alone(alloc, frame, now)
    }

    /// The device that a frame is for takes it whole; whether it took it. At `Err` nothing has changed.
    fn take_alone(&mut self, alloc: Global, frame: &Ldata, now: u64) -> Result<bool, NoMemory>
        requires { frame.now.group ≡ false }
        ensures line { self.new.line ≡ self.old.line }
        ensures next { OnOk result (ComesTo self.old now [] frame.now self.new) }
        ensures taken { IfOk result (λ taken. taken ≡ takes_it frame.now (device_at self.old frame.now.destination)) }
        ensures err { OnErr result (self.new ≡ self.old) }
    {
        let Some(place) = self.place(frame.destination) else {
            return Ok(false);
        };
        match &mut self.places[place] {
            Some(device) => {
                let took = device.take(alloc, frame, now)?;
                mark(&mut self.busy, place, device);
                Ok(matches!(took, Took::Taken))
            }
            None => Ok(false),
        }
    }

    /// The device that the frame is for takes it, and power is cut in the write that it asks for, after so many octets.
    pub fn take_torn(&mut self, frame: &Ldata, k: u32, now: u64)
        requires { is_some (write_of (device_at self.old frame.now.destination) (Some frame.now)) ≡ true }
        ensures line { self.new.line ≡ self.old.line }
        ensures next { (devices : Known) → AreDevices self.old devices
            → AreDevices self.new (one_takes now (Torn (nat_lt 0 k) (written_front (effect_at (devices frame.now.destination) frame.now) k)) (Some frame.now) devices) }
    {
        let Some(place) = self.place(frame.destination) else {
            return;
        };
        if let Some(device) = &mut self.places[place] {
            device.take_torn(frame, k, now);
            mark(&mut self.busy, place, device);
        }
    }

    /// The device that the frame is for takes it, and worn memory keeps the complement of each octet that it writes. At `Err` nothing has
    /// changed.
    pub fn take_worn(&mut self, alloc: Global, frame: &Ldata, now: u64) -> Result<(), NoMemory>
        requires { write_of (device_at self.old frame.now.destination) (Some frame.now) ≡ Some Memory }
        ensures line { self.new.line ≡ self.old.line }
        ensures next { OnOk result ((devices : Known) → AreDevices self.old devices
            → AreDevices self.new (one_takes now (Worn (worn_octets (effect_at (devices frame.now.destination) frame.now))) (Some frame.now) devices)) }
        ensures err { OnErr result (self.new ≡ self.old) }
    {
        let Some(place) = self.place(frame.destination) else {
            return Ok(());
        };
        match &mut self.places[place] {
            Some(device) => {
                device.take_worn(alloc, frame, now)?;
                mark(&mut self.busy, place, device);
                Ok(())
            }
            None => Ok(()),
        }
    }

    /// The bus brings a device the frame that it got last once more. At `Err` nothing has changed.
    pub fn take_again(&mut self, alloc: Global, address: u16, now: u64) -> Result<(), NoMemory>
        ensures line { self.new.line ≡ self.old.line }
        ensures next { OnOk result ((devices : Known) → AreDevices self.old devices → AreDevices self.new (changed address (λ d. taken_again d now) devices)) }
        ensures err { OnErr result (self.new ≡ self.old) }
    {
        let Some(place) = self.place(address) else {
            return Ok(());
        };
        match &mut self.places[place] {
            Some(device) => {
                get_again(alloc, device, now)?;
                mark(&mut self.busy, place, device);
                Ok(())
            }
            None => Ok(()),
        }
    }
}

/// A device gets the frame that it got last once more. At `Err` nothing has changed.
fn get_again(alloc: Global, device: &mut Device, now: u64) -> Result<(), NoMemory>
    ensures next { OnOk result (device.new ≡ taken_again device.old now) }
    ensures err { OnErr result (device.new ≡ device.old) }
{
    if let Some(frame) = device.last() {
        device.take(alloc, &frame, now)?;
    }
    Ok(())
}
