//! The simulated line at its beginning: its tunnel and its devices.

ghost use Rattle.std.specs.Prelude.{◌≡◌, ◌≢◌, Err, IfErr, IfOk, List as Seq, OnOk, [], slice_get, ◌∷◌, ◌++◌, ◌||◌, if◌then◌else◌};
ghost use Rattle.knx_model.specs.Rules.{has_device};
ghost use Rattle.knx_model.specs.declared.address.IndAddr.{IndAddr as Address};
ghost use Rattle.call_words.specs.declared.stop.Stop.TheVariants.{NoMemory as OutOfMemory};
ghost use Rattle.line_model.specs.Polled.{none_failed};
ghost use Rattle.line_model.specs.StartOf.{on_line_of_first, tunnel_address};
ghost use Rattle.knx_top.specs.Begun.{BeginsLine};
ghost use Rattle.call_parts.specs.Judged.{unless_strange};
ghost use Rattle.call_parts.specs.OnLine.{AreCompiled, IsImageWhere, on_bus};
ghost use Rattle.table_compiler.specs.Images.{AreImagesOf};

use bus_sim::SimBus;
use call_parts::refusal;
use call_words::{InputFile, Stop};
use knx_model::{Image, IndAddr, List, NoMemory};
use project_check::Checked;
use script_text::Script;
use std::alloc::Global;
use std::thread::Threads;
use table_compiler::Images;

/// The device part of a tunnel's address.
const TUNNEL: u16 = 255;

/// The tunnel's address where a project has no device: 1.1.255.
const DEFAULT_TUNNEL: IndAddr = IndAddr { raw: 0x11FF };

/// The tunnel's address on the line of this device, the first of some.
fn tunnel_beside(first: Option<IndAddr>) -> IndAddr
    ensures { (devices : Seq Address) → slice_get devices 0 ≡ first → result ≡ on_line_of_first devices }
{
    match first {
        Some(first) => IndAddr {
            raw: first.raw / 256 * 256 + TUNNEL,
        },
        None => DEFAULT_TUNNEL,
    }
}

/// The tunnel's address on the line of a project's first device.
pub fn tunnel_address(new: &Checked<'_, '_>) -> IndAddr
    ensures { result ≡ tunnel_address new.now }
{
    tunnel_beside(new.first())
}

/// Whether one of two projects has a device.
fn is_in_either(new: &Checked<'_, '_>, old: &Checked<'_, '_>, device: IndAddr) -> bool
    ensures { result ≡ (has_device new.now.statements device.raw || has_device old.now.statements device.raw) }
{
    new.has(device) || old.has(device)
}

/// Appends a device where it is on the bus.
fn push_where(devices: &mut List<IndAddr>, device: IndAddr, on: bool) -> Result<(), NoMemory>
    ensures { OnOk result (devices.new ≡ devices.old ++ (if on then device ∷ [] else [])) }
{
    if on { devices.push(device) } else { Ok(()) }
}

/// The devices on the bus, ascending: those of both projects on the tunnel's line.
pub fn on_bus(
    alloc: Global,
    new: &Checked<'_, '_>,
    old: &Checked<'_, '_>,
) -> Result<List<IndAddr>, NoMemory>
    ensures { IfOk result (λ devices. devices ≡ on_bus new.now old.now) }
{
    let line = tunnel_address(new).raw / 256;
    let mut devices = List::new(alloc);
    for part in 0..256 {
        let device = IndAddr {
            raw: line * 256 + part,
        };
        push_where(&mut devices, device, is_in_either(new, old, device))?;
    }
    Ok(devices)
}

/// The image of a device where a project has it, by images of its devices.
fn image_in(
    alloc: Global,
    checked: &Checked<'_, '_>,
    images: &Images,
    device: IndAddr,
) -> Result<Option<Image>, NoMemory>
    requires { AreImagesOf checked.now images.now }
    ensures { IfOk result (λ image. IsImageWhere checked.now device image) }
{
    if checked.has(device) {
        Ok(Some(images.copied(alloc, checked, device)?))
    } else {
        Ok(None)
    }
}

/// These devices, each with its image where a project has it, by images of its devices.
pub fn compiled(
    alloc: Global,
    checked: &Checked<'_, '_>,
    images: &Images,
    devices: &[IndAddr],
) -> Result<List<(IndAddr, Option<Image>)>, NoMemory>
    requires { AreImagesOf checked.now images.now }
    ensures { IfOk result (λ listed. AreCompiled checked.now listed devices.now) }
{
    let mut listed = List::new(alloc);
    for device in devices {
        let image = image_in(alloc, checked, images, *device)?;
        listed.push((*device, image))?;
    }
    Ok(listed)
}

/// The line at the beginning of a run, where the script names no device but those on the bus.
pub fn line_begun<R: Threads + Sync>(
    rt: &R,
    alloc: Global,
    new: &Checked<'_, '_>,
    old: &Checked<'_, '_>,
    script: &Script,
) -> Result<SimBus, Stop>
    ensures begun { IfOk result (λ line. BeginsLine new.now old.now script.now.lines line.run) }
    ensures sound { IfOk result (λ line. line.faults ≡ none_failed) }
    ensures refused { IfErr result (λ why. why ≢ OutOfMemory tt → unless_strange new.now old.now script.now.lines ≡ Err why) }
{
    let bus = on_bus(alloc, new, old)?;
    let images = Images::of(rt, alloc, old, bus.as_slice())?;
    let devices = compiled(alloc, old, &images, bus.as_slice())?;
    let mut line = SimBus::empty(alloc);
    match line.load(alloc, tunnel_address(new), devices.as_slice(), script) {
        Ok(()) => Ok(line),
        Err(refused) => Err(refusal(InputFile::Script, refused)),
    }
}
