//! Where a device stands among the devices of a project.

ghost use Rattle.std.specs.Prelude.{◌≡◌, ◌==◌, ◌<◌, false, true, Some, length, map, slice_get, IfSome, IfNone};
ghost use Rattle.std.specs.List.{list_any};
ghost use Rattle.std.specs.List.Sorted.{IsStrictlyIncreasing};
ghost use Rattle.project_check.specs.Devices.{raw_of};

use knx_model::IndAddr;

/// Whether a device is below all of ascending ones, or above all.
fn is_outside(devices: &[IndAddr], device: IndAddr) -> bool
    requires { IsStrictlyIncreasing (map raw_of devices.now) }
    ensures { result ≡ true → list_any (λ d. d.raw == device.raw) devices.now ≡ false }
{
    if devices.is_empty() {
        return true;
    }
    if device.raw < devices[0].raw {
        return true;
    }
    devices[devices.len() - 1].raw < device.raw
}

/// The place of a device among ascending ones.
pub fn place_of(devices: &[IndAddr], device: IndAddr) -> Option<usize>
    requires { IsStrictlyIncreasing (map raw_of devices.now) }
    ensures some { IfSome result (λ place. (place < length devices.now) × (slice_get devices.now place ≡ Some device)) }
    ensures none { IfNone result (list_any (λ d. d.raw == device.raw) devices.now ≡ false) }
{
    if is_outside(devices, device) {
        return None;
    }
    devices.binary_search(&device).ok()
}
