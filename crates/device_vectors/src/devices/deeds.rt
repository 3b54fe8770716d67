//! What is done to a simulated device, and what comes of it.

ghost use Rattle.std.specs.Prelude.{◌≤◌, length};

use device_sim::{Device, Ldata, Took, WriteKind};
use knx_model::{ApduOctets, Image, IndAddr, LdataCode, NoMemory, Octets};
use std::alloc::Global;

pub const ADDRESS: IndAddr = IndAddr { raw: 0x1105 };

pub const OTHER: u16 = 0x1106;

pub const CLIENT: u16 = 0x11FF;

pub const GROUP: u16 = 0x0A03;

/// What is done to a device.
#[derive(Drop)]
pub enum Deed<'a> {
    /// The client connects, asks for a service, and disconnects.
    Serve(&'a [u8]),
    /// A frame of the client comes to it.
    Take(&'a [u8]),
    /// A frame of the client comes to it, and worn memory keeps the complements.
    TakeWorn(&'a [u8]),
    /// A telegram to the group comes.
    Telegram(&'a [u8]),
}

/// What is done, and what the device answers to a service, or sends then.
pub type Row<'a> = (Deed<'a>, &'a [&'a [u8]]);

/// No answer, and no frame that is sent.
pub const NOTHING: &[&[u8]] = &[];

/// A TPDU of at most 64 octets.
pub fn octets(tpdu: &[u8]) -> ApduOctets {
    if tpdu.len() <= ApduOctets::CAPACITY {
        ApduOctets::from_slice(tpdu)
    } else {
        ApduOctets::new()
    }
}

/// A frame of the client.
pub fn frame(group: bool, destination: u16, tpdu: &[u8]) -> Ldata {
    Ldata {
        code: LdataCode::Req,
        error: false,
        group,
        priority: 3,
        hops: 6,
        source: CLIENT,
        destination,
        tpdu: octets(tpdu),
    }
}

pub fn to_device(tpdu: &[u8]) -> Ldata {
    frame(false, ADDRESS.raw, tpdu)
}

pub fn sends_next(device: &mut Device, wanted: &[u8]) -> bool {
    match device.sends(0) {
        Some(frame) => frame.source == ADDRESS.raw && frame.tpdu.as_slice() == wanted,
        None => false,
    }
}

/// Whether it sends just these.
pub fn sends(device: &mut Device, wanted: &[&[u8]]) -> bool {
    for tpdu in wanted {
        if !sends_next(device, tpdu) {
            return false;
        }
    }
    device.next_sending(0).is_none()
}

pub fn takes(
    alloc: Global,
    device: &mut Device,
    tpdu: &[u8],
    wanted: &[&[u8]],
) -> Result<bool, NoMemory> {
    let took = device.take(alloc, &to_device(tpdu), 0)?;
    Ok(took == Took::Taken && sends(device, wanted))
}

/// The service as numbered data with number 0.
fn numbered(service: &[u8]) -> ApduOctets {
    let mut tpdu = ApduOctets::new();
    if let [first, rest @ ..] = service {
        tpdu.push(*first | 0x40);
        if rest.len() < ApduOctets::CAPACITY {
            tpdu.extend(rest);
        }
    }
    tpdu
}

fn comes(alloc: Global, device: &mut Device, tpdu: &[u8]) -> Result<bool, NoMemory> {
    let took = device.take(alloc, &to_device(tpdu), 0)?;
    Ok(took == Took::Taken)
}

/// Whether the device acknowledges a service over a new connection.
fn asks(alloc: Global, device: &mut Device, service: &[u8]) -> Result<bool, NoMemory> {
    let connected = comes(alloc, device, b"\x80")?;
    let taken = comes(alloc, device, numbered(service).as_slice())?;
    Ok(connected && taken && sends_next(device, b"\xC2"))
}

/// Whether the device answers so, and takes the acknowledgement of that.
fn answers(alloc: Global, device: &mut Device, answer: &[u8]) -> Result<bool, NoMemory> {
    let sent = sends_next(device, numbered(answer).as_slice());
    let taken = comes(alloc, device, b"\xC2")?;
    Ok(sent && taken)
}

/// Whether the device acknowledges a service over a connection of its own, and this, if anything, is its answer.
pub fn serves(
    alloc: Global,
    device: &mut Device,
    service: &[u8],
    wanted: &[&[u8]],
) -> Result<bool, NoMemory> {
    let asked = asks(alloc, device, service)?;
    let answered = match wanted {
        [answer] => answers(alloc, device, answer)?,
        _ => wanted.is_empty(),
    };
    let silent = device.next_sending(0).is_none();
    let closed = comes(alloc, device, b"\x81")?;
    Ok(asked && answered && silent && closed)
}

pub fn takes_torn(device: &mut Device, frame: &Ldata, k: u32) -> bool {
    let writes = device.would_write(frame).is_some();
    if writes {
        device.take_torn(frame, k, 0);
    }
    writes
}

pub fn takes_worn(alloc: Global, device: &mut Device, frame: &Ldata) -> Result<bool, NoMemory> {
    if let Some(WriteKind::Memory) = device.would_write(frame) {
        device.take_worn(alloc, frame, 0)?;
        return Ok(true);
    }
    Ok(false)
}

/// Whether this is taken, and just these are its answer, or sent then.
pub fn goes(alloc: Global, device: &mut Device, row: &Row<'_>) -> Result<bool, NoMemory> {
    let (deed, wanted) = row;
    match deed {
        Deed::Serve(service) => serves(alloc, device, service, wanted),
        Deed::Take(tpdu) => takes(alloc, device, tpdu, wanted),
        Deed::TakeWorn(tpdu) => {
            Ok(takes_worn(alloc, device, &to_device(tpdu))? && sends(device, wanted))
        }
        Deed::Telegram(tpdu) => {
            let took = device.take(alloc, &frame(true, GROUP, tpdu), 0)?;
            Ok(took == Took::Taken && sends(device, wanted))
        }
    }
}

/// The first row that doesn't come out.
pub fn first_wrong(
    alloc: Global,
    device: &mut Device,
    rows: &[Row<'_>],
) -> Result<Option<usize>, NoMemory> {
    for (at, row) in rows.iter().enumerate() {
        if !goes(alloc, device, row)? {
            return Ok(Some(at));
        }
    }
    Ok(None)
}

/// Start loading of the address table, an allocation of sixteen octets, and its completion.
pub const START: &[u8] = b"\x03\xD7\x01\x05\x10\x01\x01\x00\x00\x00\x00\x00\x00\x00\x00\x00";

pub const SIXTEEN: &[u8] = b"\x03\xD7\x01\x05\x10\x01\x03\x0B\x00\x00\x00\x10\x01\x00\x00\x00";

pub const COMPLETED: &[u8] = b"\x03\xD7\x01\x05\x10\x01\x02\x00\x00\x00\x00\x00\x00\x00\x00\x00";

pub const UNLOAD_APPLICATION: &[u8] =
    b"\x03\xD7\x04\x05\x10\x01\x04\x00\x00\x00\x00\x00\x00\x00\x00\x00";

/// The octets of a small table, and none of a larger one.
fn few(octets: &[u8]) -> &[u8]
    ensures { length result.now ≤ 20 }
{
    if octets.len() <= 20 { octets } else { &[] }
}

/// A device that is loaded with these tables and this parameter memory, each of at most 20 octets.
pub fn loaded(
    alloc: Global,
    addr: &[u8],
    assoc: &[u8],
    objs: &[u8],
    params: &[u8],
) -> Result<Device, NoMemory> {
    let image = Image {
        addr: Octets::from_slice(alloc, few(addr))?,
        assoc: Octets::from_slice(alloc, few(assoc))?,
        objs: Octets::from_slice(alloc, few(objs))?,
        params: Octets::from_slice(alloc, few(params))?,
    };
    Device::loaded(alloc, ADDRESS, &image)
}

pub fn small(alloc: Global) -> Result<Device, NoMemory> {
    loaded(alloc, b"\x01\x02", b"", b"\x03", b"\x04\x05\x06")
}
