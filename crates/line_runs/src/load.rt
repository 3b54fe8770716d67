//! Many requests, for the cost of an event.

ghost use Rattle.std.specs.Prelude.{◌≤◌, length, IfOk};
ghost use Rattle.bus_sim.specs.Begun.{CanLoad};
ghost use Rattle.line_model.specs.StartOf.{default_tunnel};

use crate::client::{Client, TUNNEL};
use crate::fault::Fault;
use bus_sim::{Script, SimBus};
use knx_model::{Image, IndAddr, List, Refused};
use std::alloc::Global;

/// The device part 0 of the line.
const LINE: u16 = 0x1100;

const T_CONNECT: [u8; 1] = [0x80];

const T_DISCONNECT: [u8; 1] = [0x81];

/// The devices 1.1.1 and on, each blank.
#[tactic(auto, using(crate::proofs::Lines::one_more, crate::proofs::Lines::blank_can))]
fn blank(alloc: Global, count: u8) -> Result<Vec<(IndAddr, Option<Image>)>, Fault>
    ensures { IfOk result (λ made. CanLoad default_tunnel made.items) }
{
    let mut devices = Vec::new(alloc);
    for device in 0..count {
        let address = IndAddr {
            raw: LINE + u16::from(device) + 1,
        };
        devices.push((address, None))?;
    }
    Ok(devices)
}

/// A request is put, acknowledged and confirmed, and the confirmation acknowledged.
fn ask(client: &mut Client, number: u8, device: IndAddr, tpdu: &[u8]) -> Result<(), Fault>
    requires { length tpdu.now ≤ 64 }
{
    let mut octets = [0; 512];
    client.put(device, tpdu)?;
    let _ = client.get(&mut octets)?;
    let _ = client.get(&mut octets)?;
    client.acknowledge(number)
}

/// A line with these devices, of which no script says anything.
fn line_of(alloc: Global, devices: &[(IndAddr, Option<Image>)]) -> Result<SimBus, Refused>
    requires { CanLoad default_tunnel devices.now }
{
    let script = Script {
        lines: List::new(alloc),
    };
    let mut bus = SimBus::empty(alloc);
    bus.load(alloc, TUNNEL, devices, &script)?;
    Ok(bus)
}

/// A client of the line that has a channel.
fn connected(bus: SimBus) -> Result<Client, Fault> {
    let mut client = Client::new(bus);
    client.connect()?;
    let _ = client.get(&mut [0; 512])?;
    Ok(client)
}

/// A client on a line with these devices, which has a channel.
fn client_of(alloc: Global, devices: &[(IndAddr, Option<Image>)]) -> Result<Client, Fault>
    requires { CanLoad default_tunnel devices.now }
{
    match line_of(alloc, devices) {
        Ok(bus) => connected(bus),
        Err(refused) => Err(Fault::from(refused)),
    }
}

/// Opens a connection with a device of the line, and closes it.
fn visit(client: &mut Client, number: u8, device: u8) -> Result<(), Fault> {
    let address = IndAddr {
        raw: LINE + u16::from(device),
    };
    ask(client, number, address, &T_CONNECT)?;
    ask(client, number.wrapping_add(1), address, &T_DISCONNECT)
}

/// How many events there are where so many requests are put to the devices of a line in turn.
pub fn events_of(alloc: Global, devices: u8, requests: u32) -> Result<u64, Fault> {
    let mut client = client_of(alloc, blank(alloc, devices)?.as_slice())?;
    let mut number: u8 = 0;
    let mut device: u8 = 1;
    for _ in 0..requests / 2 {
        visit(&mut client, number, device)?;
        number = number.wrapping_add(2);
        device = if device < devices { device + 1 } else { 1 };
    }
    Ok(client.events())
}
