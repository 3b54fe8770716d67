//! What a run begins with.

ghost use Rattle.std.specs.Prelude.{◌≡◌, IfOk, IfSome};
ghost use Rattle.knx_model.specs.Device.{Fits};
ghost use Rattle.line_model.specs.Lines.{Script};
ghost use Rattle.line_model.specs.StartOf.{line_of};
ghost use Rattle.line_sim.specs.Places.{AreDevices};
ghost use Rattle.script_index.specs.Stands.{StandsFor};
ghost use Rattle.knx_model.specs.ScriptText.{first_stranger};
ghost use Rattle.bus_sim.specs.Begun.{CanLoad, addresses, begins, device_begun};
ghost use Rattle.bus_sim.specs.declared.clients.Clients.TheVariants.{One};

use crate::clients::Clients;
use knx_model::{Image, IndAddr, List, NoMemory, Octets, Refused, ScriptLine, ScriptWhat};
use line_sim::{Device, Devices};
use script_index::ScriptIndex;
use script_text::first_stranger;
use std::alloc::Global;

/// Whose it is, the tunnel's address, the devices on its line, each with the image that it is loaded with or none where it is blank, and the
/// lines of the script.
#[derive(Drop)]
pub struct Beginning {
    pub clients: Clients,
    pub tunnel: IndAddr,
    pub devices: List<(IndAddr, Option<Image>)>,
    pub script: List<ScriptLine>,
}

impl Beginning {
    /// The same, to be kept, of a run of one client.
    pub fn of(
        alloc: Global,
        tunnel: IndAddr,
        devices: &[(IndAddr, Option<Image>)],
        script: &[ScriptLine],
    ) -> Result<Beginning, NoMemory>
        ensures { IfOk result (λ made. made ≡ record { clients = One; tunnel = tunnel; devices = devices.now; script = script.now }) }
    {
        Ok(Beginning {
            clients: Clients::One,
            tunnel,
            devices: devices_of(alloc, devices)?,
            script: lines_of(alloc, script)?,
        })
    }

    /// The refusal of the first line of the script that names a device which isn't listed; none where each named device is listed.
    pub fn stranger(&self, alloc: Global) -> Result<Option<Refused>, NoMemory>
        ensures { IfOk result (λ refused. refused ≡ first_stranger (addresses self.now.devices) self.now.script) }
    {
        let listed = addresses_of(alloc, self.devices.as_slice())?;
        Ok(first_stranger(listed.as_slice(), self.script.as_slice()))
    }

    /// The devices of the line as they begin.
    pub fn begin(&self, alloc: Global, index: &ScriptIndex) -> Result<Devices, NoMemory>
        requires { CanLoad self.now.tunnel self.now.devices }
        ensures line { IfOk result (λ made. made.line ≡ line_of self.now.tunnel.raw) }
        ensures devices { IfOk result (λ made. (script : Script) → StandsFor index.now script → AreDevices made (device_begun script self.now.devices)) }
    {
        begin_all(alloc, self.tunnel, self.devices.as_slice(), index)
    }
}

/// The addresses that are listed.
fn addresses_of(
    alloc: Global,
    devices: &[(IndAddr, Option<Image>)],
) -> Result<List<IndAddr>, NoMemory>
    ensures { IfOk result (λ made. made ≡ addresses devices.now) }
{
    let mut made = List::new(alloc);
    for (address, _image) in devices {
        made.push(*address)?;
    }
    Ok(made)
}

/// The devices that are listed, as they begin. The last one is put first, so that of two with one address the first is there.
fn begin_all(
    alloc: Global,
    tunnel: IndAddr,
    devices: &[(IndAddr, Option<Image>)],
    index: &ScriptIndex,
) -> Result<Devices, NoMemory>
    requires { CanLoad tunnel devices.now }
    ensures line { IfOk result (λ made. made.line ≡ line_of tunnel.raw) }
    ensures devices { IfOk result (λ made. (script : Script) → StandsFor index.now script → AreDevices made (device_begun script devices.now)) }
{
    let mut made = Devices::none(alloc, tunnel)?;
    let mut at = devices.len();
    while at > 0 {
        at -= 1;
        let (address, image) = &devices[at];
        made.put(device_of(alloc, *address, image, index)?);
    }
    Ok(made)
}

/// A device as it begins: loaded or blank, a standard one or not, with power or without.
fn device_of(
    alloc: Global,
    address: IndAddr,
    image: &Option<Image>,
    index: &ScriptIndex,
) -> Result<Device, NoMemory>
    requires { IfSome image.now Fits }
    ensures address { IfOk result (λ device. device.address ≡ address) }
    ensures begins { IfOk result (λ device. (script : Script) → StandsFor index.now script → device ≡ begins script address image.now) }
{
    let mut device = match image {
        Some(image) => Device::loaded(alloc, address, image)?,
        None => Device::blank(alloc, address)?,
    };
    if index.is_standard(address) {
        device.set_standard();
    }
    if index.is_off(address) {
        device.cut();
    }
    Ok(device)
}

// ---- copies

fn devices_of(
    alloc: Global,
    devices: &[(IndAddr, Option<Image>)],
) -> Result<List<(IndAddr, Option<Image>)>, NoMemory>
    ensures { IfOk result (λ made. made ≡ devices.now) }
{
    let mut made = List::new(alloc);
    for (address, image) in devices {
        made.push((*address, image_if(alloc, image)?))?;
    }
    Ok(made)
}

fn image_if(alloc: Global, image: &Option<Image>) -> Result<Option<Image>, NoMemory>
    ensures { IfOk result (λ made. made ≡ image.now) }
{
    match image {
        Some(image) => Ok(Some(image_of(alloc, image)?)),
        None => Ok(None),
    }
}

fn image_of(alloc: Global, image: &Image) -> Result<Image, NoMemory>
    ensures { IfOk result (λ made. made ≡ image.now) }
{
    Ok(Image {
        addr: Octets::from_slice(alloc, image.addr.as_slice())?,
        assoc: Octets::from_slice(alloc, image.assoc.as_slice())?,
        objs: Octets::from_slice(alloc, image.objs.as_slice())?,
        params: Octets::from_slice(alloc, image.params.as_slice())?,
    })
}

fn lines_of(alloc: Global, lines: &[ScriptLine]) -> Result<List<ScriptLine>, NoMemory>
    ensures { IfOk result (λ made. made ≡ lines.now) }
{
    let mut made = List::new(alloc);
    for line in lines {
        made.push(ScriptLine {
            line: line.line,
            what: what_of(&line.what),
        })?;
    }
    Ok(made)
}

fn what_of(what: &ScriptWhat) -> ScriptWhat
    ensures { result ≡ what.now }
{
    match what {
        ScriptWhat::LoseUp(n) => ScriptWhat::LoseUp(*n),
        ScriptWhat::LoseDown(n) => ScriptWhat::LoseDown(*n),
        ScriptWhat::RepeatUp(n) => ScriptWhat::RepeatUp(*n),
        ScriptWhat::RepeatDown(n) => ScriptWhat::RepeatDown(*n),
        ScriptWhat::LoseTo(device, n) => ScriptWhat::LoseTo(*device, *n),
        ScriptWhat::LoseFrom(device, n) => ScriptWhat::LoseFrom(*device, *n),
        ScriptWhat::RepeatTo(device, n) => ScriptWhat::RepeatTo(*device, *n),
        ScriptWhat::Cut { device, n, k } => ScriptWhat::Cut {
            device: *device,
            n: *n,
            k: *k,
        },
        ScriptWhat::Worn(device, n) => ScriptWhat::Worn(*device, *n),
        ScriptWhat::CloseAfter(device, n) => ScriptWhat::CloseAfter(*device, *n),
        ScriptWhat::Refuse { n, status } => ScriptWhat::Refuse {
            n: *n,
            status: *status,
        },
        ScriptWhat::DropChannel(n) => ScriptWhat::DropChannel(*n),
        ScriptWhat::Off(device) => ScriptWhat::Off(*device),
        ScriptWhat::Standard(device) => ScriptWhat::Standard(*device),
        ScriptWhat::Group {
            after,
            group,
            service,
        } => ScriptWhat::Group {
            after: *after,
            group: *group,
            service: service.copied(),
        },
    }
}
