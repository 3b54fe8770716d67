//! The lines of the simulated line's devices.

ghost use Rattle.std.specs.Prelude.{◌≡◌, ◌++◌, ◌∷◌, [], codes, map, OnOk};
ghost use Rattle.std.specs.List.{flat_map, join_with_byte};
ghost use Rattle.knx_model.specs.Addresses.{device_text};
ghost use Rattle.call_words.specs.ReportText.{case_word};
ghost use Rattle.call_words.specs.Printed.{device_line, value_word};
ghost use Rattle.report_text.specs.Behind.{behind};

use crate::pieces::put_value;
use crate::words::case_word;
use call_words::Case;
use knx_model::{IndAddr, List, NoMemory, Octets, Value, put_device_word, put_number, put_word};
use std::alloc::Global;
use std::marker::Model;

/// A device of the simulated line at the end of a run.
#[derive(Drop)]
pub struct DeviceShown {
    pub device: IndAddr,
    pub case: Case,
    /// The values of its objects that aren't all zero, by their numbers, ascending.
    pub values: List<(u8, Value)>,
}

impl Model for DeviceShown {
    ghost use Rattle.call_words.specs.Printed as printed;

    ghost Value = { printed.DeviceShown };

    ghost view = { λ d. record { device = d.device; case = d.case; values = d.values } };
}

/// Appends a value behind its number, and a space before them.
fn put_value_word(
    alloc: Global,
    out: &mut Octets,
    number: u8,
    value: &Value,
) -> Result<(), NoMemory>
    ensures { OnOk result (out.new ≡ out.old ++ 32 ∷ value_word (number, value.now)) }
{
    out.push(b' ')?;
    put_number(alloc, out, u64::from(number))?;
    out.push(b'=')?;
    put_value(out, value)
}

/// Appends the values of a device.
fn put_values(alloc: Global, out: &mut Octets, values: &[(u8, Value)]) -> Result<(), NoMemory>
    ensures { OnOk result (out.new ≡ out.old ++ behind (map value_word values.now)) }
{
    for shown in values {
        put_value_word(alloc, out, shown.0, &shown.1)?;
    }
    Ok(())
}

/// Appends the words of a device before its values.
fn put_device_words(
    alloc: Global,
    out: &mut Octets,
    device: IndAddr,
    case: Case,
) -> Result<(), NoMemory>
    ensures { OnOk result (out.new ≡ out.old ++ join_with_byte 32 (codes "device" ∷ device_text device ∷ case_word case ∷ [])) }
{
    out.append(b"device")?;
    put_device_word(alloc, out, device)?;
    put_word(out, case_word(case).as_bytes())
}

/// Appends the line of a device.
fn put_device(alloc: Global, out: &mut Octets, shown: &DeviceShown) -> Result<(), NoMemory>
    ensures { OnOk result (out.new ≡ out.old ++ device_line shown.now) }
{
    put_device_words(alloc, out, shown.device, shown.case)?;
    put_values(alloc, out, shown.values.as_slice())?;
    out.push(b'\n')
}

/// Appends the lines of devices.
pub fn put_devices(alloc: Global, out: &mut Octets, devices: &[DeviceShown]) -> Result<(), NoMemory>
    ensures { OnOk result (out.new ≡ out.old ++ flat_map device_line devices.now) }
{
    for shown in devices {
        put_device(alloc, out, shown)?;
    }
    Ok(())
}
