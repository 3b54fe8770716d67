//! What the devices of the simulated line have come to when a run has ended.

ghost use Rattle.std.specs.Prelude.{◌≡◌, IfOk, IsSome, IsTrue, OnOk, ◌↔◌, All, Option, Some, [], ◌∷◌, ◌++◌, ◌==◌};
ghost use Rattle.std.specs.List.{filter_map, list_all};
ghost use Rattle.bus_sim.specs.RunNow.{world};
ghost use Rattle.knx_model.specs.declared.address.IndAddr.{IndAddr as Address};
ghost use Rattle.knx_model.specs.declared.config.Image.{Image as Compiled};
ghost use Rattle.knx_model.specs.Meaning.{Installation};
ghost use Rattle.knx_model.specs.DeviceState.{value_of};
ghost use Rattle.call_words.specs.Printed.{is_zero, shown, values_shown};
ghost use Rattle.call_parts.specs.OnLine.{IsImageWhere};
ghost use Rattle.knx_top.specs.Shown.{IsCase, IsShownIn, IsShownOf, AreShownOf};

use bus_sim::{Device, SimBus};
use call_words::Case;
use knx_model::{Image, IndAddr, List, NoMemory, Value};
use report_text::DeviceShown;
use std::alloc::Global;
use table_compiler::one_image;

/// Whether two images are the same.
fn is_same(one: &Image, other: &Image) -> bool
    ensures { IsTrue result ↔ (one.now ≡ other.now) }
{
    one.addr.as_slice() == other.addr.as_slice()
        && one.assoc.as_slice() == other.assoc.as_slice()
        && one.objs.as_slice() == other.objs.as_slice()
        && one.params.as_slice() == other.params.as_slice()
}

/// Whether a device that runs one image runs the one that is meant for it.
fn is_meant(running: &Image, meant: &Option<Image>) -> bool
    ensures { IsTrue result ↔ (meant.now ≡ Some running.now) }
{
    match meant {
        Some(image) => is_same(image, running),
        None => false,
    }
}

/// The case of a device: new, old or stopped, by the image that is meant for it, which is none where the project hasn't the device.
fn case_of(alloc: Global, device: &Device, meant: &Option<Image>) -> Result<Case, NoMemory>
    ensures { IfOk result (λ case. (project : Installation) (address : Address) → IsImageWhere project address meant.now → IsCase project address device.now.kept case) }
{
    one_image();
    match device.image(alloc)? {
        None => Ok(Case::Stopped),
        Some(running) => {
            if is_meant(&running, meant) {
                Ok(Case::New)
            } else {
                Ok(Case::Old)
            }
        }
    }
}

fn are_zero(octets: &[u8]) -> bool
    ensures { result ≡ list_all (λ octet. octet == 0) octets.now }
{
    octets.iter().all(|octet| *octet == 0)
}

fn is_zero(value: &Value) -> bool
    ensures { result ≡ is_zero value.now }
{
    match value {
        Value::Short(value) => *value == 0,
        Value::Long(octets) => are_zero(octets.as_slice()),
    }
}

/// Appends the value of an object, where the device has it and it isn't all zero.
fn push_value(values: &mut List<(u8, Value)>, device: &Device, object: u8) -> Result<(), NoMemory>
    ensures { OnOk result (values.new ≡ values.old ++ filter_map (λ o. shown o (value_of device.now o)) (object ∷ [])) }
{
    if let Some(value) = device.value(object) {
        if !is_zero(&value) {
            return values.push((object, value));
        }
    }
    Ok(())
}

/// The values of a device's objects that aren't all zero, ascending; none without power.
fn values_of(alloc: Global, device: &Device) -> Result<List<(u8, Value)>, NoMemory>
    ensures { IfOk result (λ values. values ≡ values_shown device.now) }
{
    let mut values = List::new(alloc);
    if !device.has_power() {
        return Ok(values);
    }
    for before in 0..u8::MAX {
        push_value(&mut values, device, before + 1)?;
    }
    Ok(values)
}

/// What is shown of a device.
fn shown_of(
    alloc: Global,
    address: IndAddr,
    device: &Device,
    meant: &Option<Image>,
) -> Result<DeviceShown, NoMemory>
    ensures { IfOk result (λ shown. IsShownOf device.now (address, meant.now) shown) }
{
    Ok(DeviceShown {
        device: address,
        case: case_of(alloc, device, meant)?,
        values: values_of(alloc, device)?,
    })
}

/// What is shown of the device at an address, which is on the line.
fn shown_at(
    alloc: Global,
    line: &SimBus,
    address: IndAddr,
    meant: &Option<Image>,
) -> Result<DeviceShown, NoMemory>
    requires { IsSome ((world line.now.run).devices address.raw) }
    ensures { IfOk result (λ shown. IsShownIn (world line.now.run) shown (address, meant.now)) }
{
    match line.state(address) {
        Some(device) => shown_of(alloc, address, device, meant),
        None => unreachable!(),
    }
}

/// What is shown of the devices, each with the image that is meant for it.
pub fn all_shown(
    alloc: Global,
    line: &SimBus,
    devices: &[(IndAddr, Option<Image>)],
) -> Result<List<DeviceShown>, NoMemory>
    requires { All (λ (d : Address × Option Compiled). IsSome ((world line.now.run).devices d.0.raw)) devices.now }
    ensures { IfOk result (λ all. AreShownOf (world line.now.run) all devices.now) }
{
    let mut all = List::new(alloc);
    for device in devices {
        all.push(shown_at(alloc, line, device.0, &device.1)?)?;
    }
    Ok(all)
}
