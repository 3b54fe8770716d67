//! A serving at a port of fixed data.

ghost use Rattle.std.specs.Prelude.{IfSome};
ghost use Rattle.knx_model.specs.KnxNetIp.{IsInRange};

use crate::fault::Fault;
use bus_sim::{Served, SimBus};
use knx_model::{IpFrame, List, Octets};
use knxnetip_frames::encode;
use line_fixed::{FixedPort, PortItem};
use line_model::PortFault;
use std::alloc::Global;

/// Whose datagrams they are.
const CLIENT: u32 = 7;

/// The first channel that the gateway makes.
const CHANNEL: u8 = 1;

/// What a letter stands for: a connect request, or the state or disconnect request of the first channel.
fn frame_of(letter: u8) -> Option<IpFrame>
    ensures { IfSome result IsInRange }
{
    match letter {
        b'c' => Some(IpFrame::ConnectRequest),
        b's' => Some(IpFrame::StateRequest { channel: CHANNEL }),
        b'd' => Some(IpFrame::DisconnectRequest { channel: CHANNEL }),
        _ => None,
    }
}

/// The datagrams that letters stand for; a `-` is none.
fn gives_of(alloc: Global, letters: &str) -> Result<List<(u32, Octets)>, Fault> {
    let mut gives = List::new(alloc);
    for letter in letters.bytes() {
        if let Some(frame) = frame_of(letter) {
            let octets = Octets::from_slice(alloc, encode(&frame).as_slice())?;
            gives.push((CLIENT, octets))?;
        }
    }
    Ok(gives)
}

/// The number of the one call that fails, none where it is 0.
fn fails_of(alloc: Global, call: u64) -> Result<List<u64>, Fault> {
    let mut fails = List::new(alloc);
    if call > 0 {
        fails.push(call)?;
    }
    Ok(fails)
}

/// Tells an item of a port's record: of what was given the client and the low octet of the service.
fn tell_item(alloc: Global, item: &PortItem, told: &mut String) -> Result<(), Fault> {
    match item {
        PortItem::Took { .. } => told.push_str(" took")?,
        PortItem::Quiet { ms } => told.push_str(format!(in alloc; " quiet {ms}")?.as_str())?,
        PortItem::Gave { to, octets } => {
            let service = octets.as_slice().get(3).copied().unwrap_or(0);
            told.push_str(format!(in alloc; " gave {to} {service:02x}")?.as_str())?;
        }
    }
    Ok(())
}

/// Tells all of them.
fn tell_items(alloc: Global, items: &[PortItem], told: &mut String) -> Result<(), Fault> {
    for item in items {
        tell_item(alloc, item, told)?;
    }
    Ok(())
}

/// The word for why a serving broke off.
fn word_of_fault(fault: PortFault) -> Result<&'static str, Fault> {
    match fault {
        PortFault::Failed => Ok(" failed"),
        PortFault::NoMemory(want) => Err(Fault::NoMemory(want)),
    }
}

/// The word for how a serving ended.
fn word_of(served: Result<Served, PortFault>) -> Result<&'static str, Fault> {
    match served {
        Ok(Served::Ended) => Ok(" ended"),
        Ok(Served::OpenTurns) => Ok(" open"),
        Err(fault) => word_of_fault(fault),
    }
}

/// What the port had, where a line without devices was served for so many turns.
pub fn served_of(alloc: Global, turns: u32, fail: u64, letters: &str) -> Result<String, Fault> {
    let mut port = FixedPort::new(alloc, gives_of(alloc, letters)?, fails_of(alloc, fail)?);
    let mut bus = SimBus::empty(alloc);
    let word = word_of(bus.serve(alloc, &mut port, turns))?;
    let mut told = String::new(alloc);
    tell_items(alloc, port.items.as_slice(), &mut told)?;
    told.push_str(word)?;
    Ok(told)
}
