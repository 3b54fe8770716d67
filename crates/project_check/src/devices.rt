//! The devices of a text.

ghost use Rattle.std.specs.Prelude.{◌≡◌, slice_get, IfOk};
ghost use Rattle.knx_model.specs.Rules.{device_in, devices_of};
ghost use Rattle.project_check.specs.Devices.{AreDevices};

use knx_model::{IndAddr, Statement, What};
use std::alloc::{AllocError, Global};

/// The device of a `device` line.
fn device_in(what: &What<'_>) -> Option<IndAddr>
    ensures { result ≡ device_in what.now }
{
    match what {
        What::Device { device, .. } => Some(*device),
        _ => None,
    }
}

/// The devices of the `device` lines, in the order of the text.
fn devices_of(alloc: Global, statements: &[Statement<'_>]) -> Result<Vec<IndAddr>, AllocError>
    ensures { IfOk result (λ devices. devices.items ≡ devices_of statements.now) }
{
    statements
        .iter()
        .filter_map(|statement| device_in(&statement.what))
        .collect(alloc)
}

/// The devices of the `device` lines, ascending.
pub fn ascending_devices(
    alloc: Global,
    statements: &[Statement<'_>],
) -> Result<Vec<IndAddr>, AllocError>
    ensures { IfOk result (λ devices. AreDevices devices.items statements.now) }
{
    let mut devices = devices_of(alloc, statements)?;
    devices.as_mut_slice().sort_unstable();
    Ok(devices)
}

/// The device of the first `device` line.
pub fn first_device(statements: &[Statement<'_>]) -> Option<IndAddr>
    ensures { result ≡ slice_get (devices_of statements.now) 0 }
{
    for statement in statements {
        if let Some(device) = device_in(&statement.what) {
            return Some(device);
        }
    }
    None
}
