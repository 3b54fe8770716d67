//! The ten octets of load control (ISO/IEC 14543-3-4, management): which load event they ask for, and those that ask for one.

ghost use Rattle.std.specs.Prelude.{◌≡◌, length};
ghost use Rattle.knx_model.specs.Loading.{allocation, load_event};
ghost use Rattle.knx_model.specs.Operations.{load_octets};

use knx_model::{ApduOctets, LoadEvent};

/// The number of no operation, as the first octet.
const NO_OPERATION: u8 = 0;
/// The number of start loading.
const START_LOADING: u8 = 1;
/// The number of load completed.
const LOAD_COMPLETED: u8 = 2;
/// The number of additional load controls, whose second octet says which one.
const ADDITIONAL_LOAD_CONTROLS: u8 = 3;
/// The number of unload.
const UNLOAD: u8 = 4;
/// A number that no event has.
const UNDEFINED: u8 = 5;

/// The one additional load control: an allocation of a size, wherever the device has room.
const RELATIVE_ALLOCATION: u8 = 0x0B;
/// In an allocation, that its octets are filled.
const FILLED: u8 = 1;

/// The allocation that stands behind the number: 0B, size (4), 01, fill, 00 00.
fn allocation(octets: &[u8]) -> LoadEvent
    ensures { result ≡ allocation octets.now }
{
    match octets {
        [RELATIVE_ALLOCATION, a, b, c, d, FILLED, fill, 0, 0] => LoadEvent::Allocate {
            size: u32::from_be_bytes([*a, *b, *c, *d]),
            fill: *fill,
        },
        _ => LoadEvent::Undefined,
    }
}

/// The load event that the ten octets of load control ask for. Octets that ask for none are `Undefined`.
pub fn load_event(octets: &[u8]) -> LoadEvent
    ensures { result ≡ load_event octets.now }
{
    match octets {
        [NO_OPERATION, ..] => LoadEvent::NoOperation,
        [START_LOADING, ..] => LoadEvent::StartLoading,
        [LOAD_COMPLETED, ..] => LoadEvent::LoadCompleted,
        [ADDITIONAL_LOAD_CONTROLS, rest @ ..] => allocation(rest),
        [UNLOAD, ..] => LoadEvent::Unload,
        _ => LoadEvent::Undefined,
    }
}

fn allocation_octets(size: u32, fill: u8) -> [u8; 10]
    ensures { result ≡ load_octets (LoadEvent.Allocate size fill) }
{
    let high = (size >> 16) as u16;
    let low = (size & 0xFFFF) as u16;
    [
        ADDITIONAL_LOAD_CONTROLS,
        RELATIVE_ALLOCATION,
        (high >> 8) as u8,
        (high & 0xFF) as u8,
        (low >> 8) as u8,
        (low & 0xFF) as u8,
        FILLED,
        fill,
        0,
        0,
    ]
}

/// The ten octets of load control that ask for an event.
pub fn load_octets(event: LoadEvent) -> ApduOctets
    ensures value { result ≡ load_octets event }
    ensures len { length result ≡ 10 }
{
    let octets = match event {
        LoadEvent::NoOperation => [NO_OPERATION, 0, 0, 0, 0, 0, 0, 0, 0, 0],
        LoadEvent::StartLoading => [START_LOADING, 0, 0, 0, 0, 0, 0, 0, 0, 0],
        LoadEvent::LoadCompleted => [LOAD_COMPLETED, 0, 0, 0, 0, 0, 0, 0, 0, 0],
        LoadEvent::Allocate { size, fill } => allocation_octets(size, fill),
        LoadEvent::Unload => [UNLOAD, 0, 0, 0, 0, 0, 0, 0, 0, 0],
        LoadEvent::Undefined => [UNDEFINED, 0, 0, 0, 0, 0, 0, 0, 0, 0],
    };
    ApduOctets::from_slice(&octets)
}
