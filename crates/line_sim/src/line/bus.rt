//! Events of the bus and of the devices.

ghost use Rattle.std.specs.Prelude.{◌≡◌, [], ◌∷◌, Some, OnOk, OnErr, is_some, nat_lt, option_to_list, true};
ghost use Rattle.knx_model.specs.declared.device.WriteKind.TheVariants.{Memory};
ghost use Rattle.knx_model.specs.Device.{written_front};
ghost use Rattle.knx_model.specs.DeviceFrames.{worn_octets};
ghost use Rattle.line_model.specs.World.{World, Devices as Known, Bus, BusTorn, BusWorn, BusAgain, DevSend, DevRepeat, DevClose, Cut, On, others_take, step};
ghost use Rattle.line_sim.specs.Line.{IsNow, effect_due, write_due};
ghost use Rattle.line_sim.specs.Places.{AreDevices, IsDue};
ghost use Rattle.tunnel_sim.specs.Tunnels.{at_gateway};

use super::Line;
use crate::devices::Devices;
use knx_model::{Ldata, NoMemory};
use std::alloc::Global;
use tunnel_sim::{AtGateway, confirmation};

impl Line {
    // ---- frames of the client

    /// The client's frame goes over the bus: every device takes it whole, but for one that it is lost for. At `Err` nothing has changed.
    pub fn bus(&mut self, alloc: Global, lost: Option<u16>) -> Result<(), NoMemory>
        ensures next { OnOk result ((w : World) → IsNow self.old w → IsNow self.new (step w (Bus (option_to_list lost)))) }
        ensures err { OnErr result (self.new ≡ self.old) }
    {
        let Some(frame) = self.tunnel.gateway.frame_due() else {
            self.tunnel.elsewhere();
            return Ok(());
        };
        self.tunnel.gateway.waiting.reserve(1)?;
        let confirms = self.devices.take(alloc, &frame, self.tunnel.time, lost)?;
        self.tunnel.carried(confirmation(frame, confirms));
        self.echo = None;
        Ok(())
    }

    /// The client's frame goes over the bus, and the device that it is for loses its power in the write that it is, after so many octets. At
    /// `Err` nothing has changed.
    pub fn bus_torn(&mut self, k: u32) -> Result<(), NoMemory>
        requires { is_some (write_due self.old) ≡ true }
        ensures next { OnOk result ((w : World) → IsNow self.old w → IsNow self.new (step w (BusTorn (nat_lt 0 k) (written_front (effect_due self.old) k)))) }
        ensures err { OnErr result (self.new ≡ self.old) }
    {
        let Some(frame) = self.tunnel.gateway.frame_due() else {
            return Ok(());
        };
        self.tunnel.gateway.waiting.reserve(1)?;
        self.devices.take_torn(&frame, k, self.tunnel.time);
        self.tunnel.carried(confirmation(frame, true));
        self.echo = None;
        Ok(())
    }

    /// The client's frame goes over the bus, and the device that it is for takes the memory write that it is into worn memory, which keeps the
    /// complement of each octet. At `Err` nothing has changed.
    pub fn bus_worn(&mut self, alloc: Global) -> Result<(), NoMemory>
        requires { write_due self.old ≡ Some Memory }
        ensures next { OnOk result ((w : World) → IsNow self.old w → IsNow self.new (step w (BusWorn (worn_octets (effect_due self.old))))) }
        ensures err { OnErr result (self.new ≡ self.old) }
    {
        let Some(frame) = self.tunnel.gateway.frame_due() else {
            return Ok(());
        };
        self.tunnel.gateway.waiting.reserve(1)?;
        self.devices.take_worn(alloc, &frame, self.tunnel.time)?;
        self.tunnel.carried(confirmation(frame, true));
        self.echo = None;
        Ok(())
    }

    /// A device takes again the frame that it got last. At `Err` nothing has changed.
    pub fn bus_again(&mut self, alloc: Global, device: u16) -> Result<(), NoMemory>
        ensures next { OnOk result ((w : World) → IsNow self.old w → IsNow self.new (step w (BusAgain device))) }
        ensures err { OnErr result (self.new ≡ self.old) }
    {
        self.devices.take_again(alloc, device, self.tunnel.time)?;
        self.tunnel.elsewhere();
        Ok(())
    }

    // ---- frames of the devices

    /// A device's oldest unsent frame goes over the bus; where it is to a group, the others take it. At `Err` nothing has changed.
    pub fn dev_send(&mut self, alloc: Global, device: u16, at: AtGateway) -> Result<(), NoMemory>
        ensures next { OnOk result ((w : World) → IsNow self.old w → IsNow self.new (step w (DevSend device (at_gateway at) []))) }
        ensures err { OnErr result (self.new ≡ self.old) }
    {
        self.tunnel.gateway.waiting.reserve(1)?;
        let Some(frame) = self.devices.waiting(device) else {
            let _ = self.devices.send_waiting(device);
            self.tunnel.elsewhere();
            return Ok(());
        };
        to_others(&mut self.devices, alloc, &frame, self.tunnel.time, device)?;
        let _ = self.devices.send_waiting(device);
        self.tunnel.hear(at, frame.copied());
        self.echo = Some(frame);
        Ok(())
    }

    /// A device's outstanding answer, which is due again, goes over the bus once more. At `Err` nothing has changed.
    pub fn dev_repeat(&mut self, device: u16, at: AtGateway) -> Result<(), NoMemory>
        requires { IsDue self.old.devices device self.old.tunnel.now }
        ensures next { OnOk result ((w : World) → IsNow self.old w → IsNow self.new (step w (DevRepeat device (at_gateway at)))) }
        ensures err { OnErr result (self.new ≡ self.old) }
    {
        self.tunnel.gateway.waiting.reserve(1)?;
        let Some(frame) = self.devices.repeat(device, self.tunnel.time) else {
            self.tunnel.elsewhere();
            return Ok(());
        };
        self.tunnel.hear(at, frame.copied());
        self.echo = Some(frame);
        Ok(())
    }

    /// A device closes its connection. At `Err` nothing has changed.
    pub fn dev_close(&mut self, alloc: Global, device: u16) -> Result<(), NoMemory>
        ensures next { OnOk result ((w : World) → IsNow self.old w → IsNow self.new (step w (DevClose device))) }
        ensures err { OnErr result (self.new ≡ self.old) }
    {
        self.devices.shut(alloc, device)?;
        self.tunnel.elsewhere();
        Ok(())
    }

    // ---- power

    /// A device loses its power.
    pub fn cut(&mut self, device: u16)
        ensures { (w : World) → IsNow self.old w → IsNow self.new (step w (Cut device)) }
    {
        self.devices.cut(device);
        self.tunnel.elsewhere();
    }

    /// It has power again.
    pub fn on(&mut self, device: u16)
        ensures { (w : World) → IsNow self.old w → IsNow self.new (step w (On device)) }
    {
        self.devices.on(device);
        self.tunnel.elsewhere();
    }
}

/// A device's frame to a group comes to the other devices. At `Err` nothing has changed.
fn to_others(
    devices: &mut Devices,
    alloc: Global,
    frame: &Ldata,
    now: u64,
    device: u16,
) -> Result<(), NoMemory>
    ensures next { OnOk result ((known : Known) → AreDevices devices.old known → AreDevices devices.new (others_take now (device ∷ []) (Some frame.now) known)) }
    ensures err { OnErr result (devices.new ≡ devices.old) }
{
    if frame.group {
        devices.take(alloc, frame, now, Some(device))?;
        Ok(())
    } else {
        Ok(())
    }
}
