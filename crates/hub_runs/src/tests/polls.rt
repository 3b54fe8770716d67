//! How long polls last: a worker that has something to do isn't kept waiting.

ghost use Rattle.std.specs.Prelude.{◌≡◌, ◌≤◌, length};

use super::{JobKind, group_turns, jobs_of};
use hub_core::Hub;
use knx_model::{List, NoMemory, Octets};
use line_fixed::FixedLink;
use std::alloc::Global;
use std::process::Abort;
use std::test::Fail;

/// The channel 1 is open.
const CONNECTED: [u8; 20] = [
    0x06, 0x10, 0x02, 0x06, 0x00, 0x14, 0x01, 0x00, 0x08, 0x01, 0x00, 0x00, 0x00, 0x00, 0x00, 0x00,
    0x04, 0x04, 0x11, 0xFF,
];

/// The client's first request in it is acknowledged.
const ACKNOWLEDGED: [u8; 10] = [0x06, 0x10, 0x04, 0x21, 0x00, 0x0A, 0x04, 0x01, 0x00, 0x00];

/// The gateway's first request: the confirmation of the T_Connect to the device.
const CONFIRMED: [u8; 20] = [
    0x06, 0x10, 0x04, 0x20, 0x00, 0x14, 0x04, 0x01, 0x00, 0x00, 0x2E, 0x00, 0xBC, 0x60, 0x11, 0xFF,
    0x11, 0x05, 0x00, 0x80,
];

/// A confirmation of a T_Connect to another device, 1.1.6.
const OF_ANOTHER: [u8; 20] = [
    0x06, 0x10, 0x04, 0x20, 0x00, 0x14, 0x04, 0x01, 0x00, 0x00, 0x2E, 0x00, 0xBC, 0x60, 0x11, 0xFF,
    0x11, 0x06, 0x00, 0x80,
];

/// A confirmation of a T_Disconnect to the device.
const OF_ANOTHER_FRAME: [u8; 20] = [
    0x06, 0x10, 0x04, 0x20, 0x00, 0x14, 0x04, 0x01, 0x00, 0x00, 0x2E, 0x00, 0xBC, 0x60, 0x11, 0xFF,
    0x11, 0x05, 0x00, 0x81,
];

/// A frame of the device to the tunnel: a T_Disconnect.
const OF_DEVICE: [u8; 20] = [
    0x06, 0x10, 0x04, 0x20, 0x00, 0x14, 0x04, 0x01, 0x00, 0x00, 0x29, 0x00, 0xBC, 0x60, 0x11, 0x05,
    0x11, 0xFF, 0x00, 0x81,
];

/// The same to another address, 1.1.254.
const TO_ANOTHER: [u8; 20] = [
    0x06, 0x10, 0x04, 0x20, 0x00, 0x14, 0x04, 0x01, 0x00, 0x00, 0x29, 0x00, 0xBC, 0x60, 0x11, 0x05,
    0x11, 0xFE, 0x00, 0x81,
];

/// A call of the hub, by its one worker.
#[derive(Clone, Copy, Drop)]
enum Call {
    Turn,
    Pump,
}

/// Calls of a hub with one job, and at how many milliseconds the last of them ends.
#[derive(Drop)]
struct Row {
    name: &'static str,
    /// The gateway's first request.
    first: &'static [u8],
    calls: &'static [Call],
    ends: u64,
}

/// At how many milliseconds the newest entry of a link's record is.
fn newest_time(link: &FixedLink) -> Option<u64> {
    let newest = link.entries.stretches().last()?;
    Some(newest.now)
}

/// Makes a call. Tells whether there was no fault.
fn is_done(hub: &mut Hub<FixedLink>, call: Call) -> bool
    requires { 1 ≤ length hub.old.crew }
    ensures { length hub.new.crew ≡ length hub.old.crew }
{
    match call {
        Call::Turn => hub.turn(1).is_ok(),
        Call::Pump => hub.pump().is_ok(),
    }
}

/// At how many milliseconds the last of these calls ends; None where one of them has a fault.
fn ends_at(hub: Hub<FixedLink>, calls: &[Call]) -> Option<u64>
    requires { 1 ≤ length hub.crew }
{
    let mut hub = hub;
    for call in calls {
        if !is_done(&mut hub, *call) {
            return None;
        }
    }
    let link = hub.close().link;
    newest_time(&link)
}

fn gives(alloc: Global, first: &[u8]) -> Result<List<Octets>, NoMemory> {
    let mut gives = List::new(alloc);
    gives.push(Octets::from_slice(alloc, &CONNECTED)?)?;
    gives.push(Octets::from_slice(alloc, &ACKNOWLEDGED)?)?;
    gives.push(Octets::from_slice(alloc, first)?)?;
    Ok(gives)
}

fn drive<R: Abort>(rt: &R, alloc: Global, row: &Row) -> Result<(), NoMemory> {
    let jobs = jobs_of(alloc, &[JobKind::Load])?;
    assert!(rt; jobs.len() < 100);
    let groups = group_turns(alloc, &[])?;
    let link = FixedLink::new(alloc, gives(alloc, row.first)?, None, List::new(alloc));
    let ends = match Hub::begin(alloc, jobs, groups, 1, link) {
        Ok(hub) => ends_at(hub, row.calls),
        Err(_) => None,
    };
    assert!(rt; ends == Some(row.ends), "{}", row.name);
    Ok(())
}

/// A poll takes no time where something that came waits for its worker, or where a worker whose attempt has begun has something to send.
#[test]
fn polls_last_as_they_should(rt: HostRuntime) -> Result<(), Fail> {
    use Call::{Pump, Turn};
    let rows = [
        Row {
            name: "no attempt has begun",
            first: &CONFIRMED,
            calls: &[Turn, Pump, Pump, Pump, Pump],
            ends: 100,
        },
        Row {
            name: "the confirmation waits for its worker",
            first: &CONFIRMED,
            calls: &[Turn, Pump, Turn, Pump, Pump, Pump],
            ends: 0,
        },
        Row {
            name: "the confirmation is another device's",
            first: &OF_ANOTHER,
            calls: &[Turn, Pump, Turn, Pump, Pump, Pump],
            ends: 100,
        },
        Row {
            name: "the confirmation is another frame's",
            first: &OF_ANOTHER_FRAME,
            calls: &[Turn, Pump, Turn, Pump, Pump, Pump],
            ends: 100,
        },
        Row {
            name: "a confirmation that is another's brings no connection up",
            first: &OF_ANOTHER,
            calls: &[Turn, Pump, Turn, Pump, Pump, Turn, Pump],
            ends: 100,
        },
        Row {
            name: "a frame of the device waits for its worker",
            first: &OF_DEVICE,
            calls: &[Turn, Pump, Turn, Pump, Pump, Pump],
            ends: 0,
        },
        Row {
            name: "a frame of the device to another address is for no worker",
            first: &TO_ANOTHER,
            calls: &[Turn, Pump, Turn, Pump, Pump, Pump],
            ends: 100,
        },
        Row {
            name: "the worker has an operation to send",
            first: &CONFIRMED,
            calls: &[Turn, Pump, Turn, Pump, Pump, Turn, Pump],
            ends: 0,
        },
        Row {
            name: "the operation is sent",
            first: &CONFIRMED,
            calls: &[Turn, Pump, Turn, Pump, Pump, Turn, Turn, Pump],
            ends: 100,
        },
    ];
    for row in &rows {
        drive(&rt, rt.alloc(), row)?;
    }
    Ok(())
}
