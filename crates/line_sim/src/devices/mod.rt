//! The devices of one line, in 256 places by the device part of their address (ISO/IEC 14543-3-4).

ghost use Rattle.std.specs.Prelude.{◌≡◌, ◌≢◌, ℕ, ◌<◌, ◌==◌, Some, None, IfOk, OnOk, OnErr, false, option_copied, if◌then◌else◌};
ghost use Rattle.knx_model.specs.DeviceState.{DeviceState, cut, switched_on};
ghost use Rattle.knx_model.specs.DeviceSending.{waiting_frame, pops, repeat_frame, repeats, shut};
ghost use Rattle.device_sim.specs.Sending.{IsQuiet};
ghost use Rattle.line_model.specs.World.{Devices as Known, changed, frame_by};
ghost use Rattle.line_sim.specs.Parts.{has_part};
ghost use Rattle.line_sim.specs.Places.{AreDevices, IsDue, device_at, device_part, line_part, with_device};

mod due;
mod group;
mod taking;

use crate::parts::Parts;
use device_sim::Device;
use knx_model::{IndAddr, Ldata, NoMemory};
use std::alloc::Global;
use std::marker::Model;

/// How many devices a line has room for: the device part of an address has eight bits.
const PLACES: usize = 256;

/// The devices of one line, by their addresses.
#[derive(Drop)]
pub struct Devices {
    line: u8,
    places: Vec<Option<Device>>,
    /// The parts of the devices that may have a connection or a frame to send: time brings nothing to the others.
    busy: Parts,
}

impl Model for Devices {
    ghost use Rattle.line_sim.specs.Places.{DevicesNow, AreKept};

    ghost Value = { DevicesNow };

    ghost view = { λ d. record { line = d.line; places = d.places.items } };

    ghost invariant = { λ d. AreKept d.line d.places.items d.busy };
}

impl Devices {
    /// No devices, on the line of an address.
    pub fn none(alloc: Global, on: IndAddr) -> Result<Devices, NoMemory>
        ensures line { IfOk result (λ made. made.line ≡ line_part on.raw) }
        ensures empty { IfOk result (λ made. AreDevices made (λ address. None)) }
    {
        let mut places = Vec::with_capacity(alloc, PLACES)?;
        for _part in 0..PLACES {
            places.push(None)?;
        }
        Ok(Devices {
            line: (on.raw / 256) as u8,
            places,
            busy: Parts::none(),
        })
    }

    /// One device more, on this line; it takes the place of one with its address.
    pub fn put(&mut self, device: Device)
        requires { line_part device.address.raw ≡ self.old.line }
        ensures line { self.new.line ≡ self.old.line }
        ensures next { (devices : Known) → AreDevices self.old devices → AreDevices self.new (with_device device devices) }
    {
        let Some(place) = self.place(device.address().raw) else {
            return;
        };
        mark(&mut self.busy, place, &device);
        self.places[place] = Some(device);
    }

    /// The place of an address on this line.
    fn place(&self, address: u16) -> Option<usize>
        ensures { result ≡ (if line_part address == self.now.line then Some (device_part address) else None) }
    {
        if u16::from(self.line) == address / 256 {
            Some((address % 256) as usize)
        } else {
            None
        }
    }

    /// The device at an address.
    pub fn get(&self, address: u16) -> Option<&Device>
        ensures { option_copied result ≡ device_at self.now address }
    {
        self.places[self.place(address)?].as_ref()
    }

    /// Each device has the address at which it is, for a caller to know. It does nothing.
    pub fn names(&self)
        ensures { (address : ℕ) (d : DeviceState) → device_at self.now address ≡ Some d → d.address.raw ≡ address }
    {
        // The proof knows the type's invariant once a field is read.
        let _places = &self.places;
    }

    /// A device loses its power.
    pub fn cut(&mut self, address: u16)
        ensures line { self.new.line ≡ self.old.line }
        ensures next { (devices : Known) → AreDevices self.old devices → AreDevices self.new (changed address cut devices) }
    {
        let Some(place) = self.place(address) else {
            return;
        };
        if let Some(device) = &mut self.places[place] {
            device.cut();
            mark(&mut self.busy, place, device);
        }
    }

    /// It has power again.
    pub fn on(&mut self, address: u16)
        ensures line { self.new.line ≡ self.old.line }
        ensures next { (devices : Known) → AreDevices self.old devices → AreDevices self.new (changed address switched_on devices) }
    {
        let Some(place) = self.place(address) else {
            return;
        };
        if let Some(device) = &mut self.places[place] {
            device.on();
            mark(&mut self.busy, place, device);
        }
    }

    /// It closes its connection. At `Err` nothing has changed.
    pub fn shut(&mut self, alloc: Global, address: u16) -> Result<(), NoMemory>
        ensures line { self.new.line ≡ self.old.line }
        ensures next { OnOk result ((devices : Known) → AreDevices self.old devices → AreDevices self.new (changed address shut devices)) }
        ensures err { OnErr result (self.new ≡ self.old) }
    {
        let Some(place) = self.place(address) else {
            return Ok(());
        };
        match &mut self.places[place] {
            Some(device) => {
                device.shut(alloc)?;
                mark(&mut self.busy, place, device);
                Ok(())
            }
            None => Ok(()),
        }
    }

    /// The frame that a device sends next of those that wait.
    pub fn waiting(&self, address: u16) -> Option<Ldata>
        ensures { result ≡ frame_by waiting_frame (device_at self.now address) }
    {
        self.get(address)?.waiting()
    }

    /// It sends the frame that waits longest.
    pub fn send_waiting(&mut self, address: u16) -> Option<Ldata>
        ensures line { self.new.line ≡ self.old.line }
        ensures frame { result ≡ frame_by waiting_frame (device_at self.old address) }
        ensures next { (devices : Known) → AreDevices self.old devices → AreDevices self.new (changed address pops devices) }
    {
        let place = self.place(address)?;
        match &mut self.places[place] {
            Some(device) => {
                let frame = device.send_waiting();
                mark(&mut self.busy, place, device);
                frame
            }
            None => None,
        }
    }

    /// It sends its outstanding answer again.
    pub fn repeat(&mut self, address: u16, now: u64) -> Option<Ldata>
        requires { IsDue self.old address now }
        ensures line { self.new.line ≡ self.old.line }
        ensures frame { result ≡ frame_by repeat_frame (device_at self.old address) }
        ensures next { (devices : Known) → AreDevices self.old devices → AreDevices self.new (changed address (λ d. repeats d now) devices) }
    {
        let place = self.place(address)?;
        match &mut self.places[place] {
            Some(device) => {
                let frame = device.repeat(now);
                mark(&mut self.busy, place, device);
                frame
            }
            None => None,
        }
    }
}

/// After its device changed, a device part is among the busy ones exactly where that device isn't quiet.
fn mark(busy: &mut Parts, part: usize, device: &Device)
    requires { part < 256 }
    ensures here { has_part busy.new part ≡ false → IsQuiet device.now }
    ensures others { (p : ℕ) → p ≢ part → has_part busy.new p ≡ has_part busy.old p }
{
    busy.set(part, !device.is_quiet());
}
