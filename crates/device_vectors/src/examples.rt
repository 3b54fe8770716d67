//! The examples that stand on the pages of the libraries' crates, each with what comes of it.

use apdu_frames::{Apdu, Tpdu, Value};
use device_sim::{Device, Ldata};
use knx_model::{ApduOctets, Catalogue, Datagram, IndAddr, LdataCode, NoMemory, Octets};
use knxnetip_frames::IpFrame;
use project_check::check;
use project_text::read_project;
use std::alloc::Global;
use std::test::Fail;
use table_compiler::compile;

/// The frame of the link layer that a tunnelling request of this channel carries.
fn request_of(channel: u8, datagram: &[u8]) -> Option<Datagram> {
    match knxnetip_frames::decode(datagram) {
        Ok(
            IpFrame::TunnellingRequest {
                channel: other,
                cemi,
                ..
            },
        ) if other == channel => Some(cemi),
        _ => None,
    }
}

/// The group address that a frame goes to, as it is written in 16 bits.
fn group_of(octets: &[u8]) -> Option<u16> {
    match cemi_frames::decode(octets) {
        Ok(frame) if frame.group => Some(frame.destination),
        _ => None,
    }
}

/// The value that a TPDU writes to a group.
fn value_written(tpdu: &[u8]) -> Option<Value> {
    match apdu_frames::decode(tpdu) {
        Ok(Tpdu::Unnumbered(Apdu::GroupWrite(value))) => Some(value),
        _ => None,
    }
}

/// The address table of a device of a project without a catalogue; None where the text is refused, or memory is wanting.
fn address_table(alloc: Global, text: &[u8], device: IndAddr) -> Option<Octets> {
    let catalogue = Catalogue::empty(alloc);
    let project = read_project(alloc, text).ok()?;
    let checked = check(alloc, &project, &catalogue).ok()?;
    let image = compile(alloc, &checked, device).ok()?;
    Some(image.addr)
}

/// A blank device is connected and asked: it sends its acknowledgement, and then this answer.
fn answer(alloc: Global, connect: &Ldata, question: &Ldata) -> Result<Option<Ldata>, NoMemory> {
    let mut device = Device::blank(alloc, IndAddr { raw: 0x1105 })?;
    device.take(alloc, connect, 0)?;
    device.take(alloc, question, 20)?;
    let _acknowledgement = device.sends(20);
    Ok(device.sends(20))
}

/// A frame of the client to the device.
fn to_device(tpdu: ApduOctets) -> Ldata {
    Ldata {
        code: LdataCode::Req,
        error: false,
        group: false,
        priority: 3,
        hops: 6,
        source: 0x11FF,
        destination: 0x1105,
        tpdu,
    }
}

#[test]
fn a_datagram_is_taken_apart(rt: HostRuntime) -> Result<(), Fail> {
    let datagram = [
        0x06, 0x10, 0x04, 0x20, 0x00, 0x15, 0x04, 0x01, 0x00, 0x00, 0x11, 0x00, 0xBC, 0xE0, 0x00,
        0x00, 0x0A, 0x03, 0x01, 0x00, 0x81,
    ];
    assert!(rt; request_of(2, &datagram).is_none());
    let cemi = request_of(1, &datagram).ok_or("a request")?;
    assert_eq!(rt; group_of(cemi.as_slice()), Some(0x0A03));
    assert_eq!(rt; value_written(&[0x00, 0x81]), Some(Value::Short(1)));
    Ok(())
}

#[test]
fn a_text_becomes_a_table(rt: HostRuntime) -> Result<(), Fail> {
    let text = b"ga 1/2/3 light\ndevice 1.1.5 inline\nobject 1.1.5 1 1 CW\nlink 1.1.5 1 1/2/3\n";
    let device = IndAddr { raw: 0x1105 };
    let table = address_table(rt.alloc(), text, device).ok_or("a table")?;
    assert_eq!(rt; table.as_slice(), b"\x00\x01\x0A\x03".as_slice());
    assert!(rt; address_table(rt.alloc(), b"devise", device).is_none());
    Ok(())
}

#[test]
fn a_device_answers(rt: HostRuntime) -> Result<(), Fail> {
    let connect = to_device(ApduOctets::from_slice(&[0x80]));
    let read = to_device(ApduOctets::from_slice(&[0x43, 0x00]));
    let sent = answer(rt.alloc(), &connect, &read)?.ok_or("an answer")?;
    assert_eq!(rt; sent.tpdu.as_slice(), b"\x43\x40\x07\xB0".as_slice());
    Ok(())
}
