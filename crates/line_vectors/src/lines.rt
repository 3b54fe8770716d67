//! A device's descriptor, read through network, gateway, bus and device, and back; what is due of it then, and what comes again.

ghost use Rattle.std.specs.Prelude.{◌≡◌, ◌+◌, ◌≤◌, length};
ghost use Rattle.knx_model.specs.KnxNetIp.{IsInRange};

use knx_model::{IpFrame, NoMemory};
use knxnetip_frames::encode;
use line_sim::{AtGateway, Datagram, Device, Devices, Due, IndAddr, Line, Sending, WriteKind};
use std::alloc::Global;
use std::test::Fail;

const TUNNEL: IndAddr = IndAddr { raw: 0x11FF };

const DEVICE: IndAddr = IndAddr { raw: 0x1105 };

const T_CONNECT: [u8; 1] = [0x80];

/// A_DeviceDescriptor_Read, as numbered data 0.
const READ: [u8; 2] = [0x43, 0x00];

/// TUNNELLING_REQUEST 3 of channel 1: L_Data.ind from 1.1.5 to 1.1.255, numbered data 0, A_DeviceDescriptor_Response of mask 07B0.
const ANSWER: [u8; 23] = [
    0x06, 0x10, 0x04, 0x20, 0x00, 0x17, 0x04, 0x01, 0x03, 0x00, 0x29, 0x00, 0xBC, 0x60, 0x11, 0x05,
    0x11, 0xFF, 0x03, 0x43, 0x40, 0x07, 0xB0,
];

/// A_PropertyValue_Write of the application's load control: start loading; as numbered data 0.
const START_LOADING: [u8; 16] = [
    0x43, 0xD7, 0x04, 0x05, 0x10, 0x01, 0x01, 0x00, 0x00, 0x00, 0x00, 0x00, 0x00, 0x00, 0x00, 0x00,
];

/// L_Data.req to the device.
fn to_device(tpdu: &[u8]) -> Datagram
    requires { length tpdu.now ≤ 16 }
    ensures { length result ≡ 9 + length tpdu.now }
{
    let mut cemi = Datagram::from_slice(&[
        0x11,
        0x00,
        0xBC,
        0x60,
        0x00,
        0x00,
        0x11,
        0x05,
        tpdu.len().saturating_sub(1) as u8,
    ]);
    cemi.extend(tpdu);
    cemi
}

fn send(line: &mut Line, frame: &IpFrame)
    requires { IsInRange frame.now }
{
    line.send(encode(frame).as_slice());
}

/// The oldest datagram under way to the gateway arrives.
fn arrive(line: &mut Line) -> Result<(), NoMemory> {
    match line.next_up() {
        Some(age) => line.up(age),
        None => Ok(()),
    }
}

/// The client gets the oldest datagram that is under way to it.
fn get(line: &mut Line) -> Option<Datagram> {
    let age = line.next_down()?;
    Some(line.down(age))
}

/// The client sends a request of channel 1, and its frame goes over the bus; acknowledgement and confirmation come, and this is acknowledged.
fn ask(alloc: Global, line: &mut Line, number: u8, tpdu: &[u8]) -> Result<(), NoMemory>
    requires { length tpdu.now ≤ 16 }
{
    let request = IpFrame::TunnellingRequest {
        channel: 1,
        number,
        cemi: to_device(tpdu),
    };
    send(line, &request);
    arrive(line)?;
    line.bus(alloc, None)?;
    let _ = get(line);
    let _ = get(line);
    acknowledge(line, number)
}

fn acknowledge(line: &mut Line, number: u8) -> Result<(), NoMemory> {
    let ack = IpFrame::TunnellingAck {
        channel: 1,
        number,
        status: 0,
    };
    send(line, &ack);
    arrive(line)
}

fn line(alloc: Global) -> Result<Line, NoMemory> {
    let mut devices = Devices::none(alloc, TUNNEL)?;
    devices.put(Device::blank(alloc, DEVICE)?);
    Line::new(alloc, TUNNEL, devices)
}

#[test]
fn a_descriptor_is_read(rt: HostRuntime) -> Result<(), Fail> {
    let line = &mut line(rt.alloc())?;
    send(line, &IpFrame::ConnectRequest);
    arrive(line)?;
    assert!(rt; get(line).is_some());
    ask(rt.alloc(), line, 0, &T_CONNECT)?;
    ask(rt.alloc(), line, 1, &READ)?;
    line.dev_send(rt.alloc(), DEVICE.raw, AtGateway::Comes)?;
    assert!(rt; get(line).is_some());
    acknowledge(line, 2)?;
    line.dev_send(rt.alloc(), DEVICE.raw, AtGateway::Comes)?;
    assert_eq!(rt; get(line), Some(Datagram::from_slice(&ANSWER)));
    assert_eq!(rt; (line.made(), line.acted()), (1, 2));
    Ok(())
}

/// What a line does of itself.
#[derive(Clone, Copy, Debug, Drop, PartialEq, Eq)]
enum Turn {
    Device(Sending),
    Gateway(Due),
    Waits,
}

/// What is due next, which is done: the gateway hears nothing of it.
fn go_on(alloc: Global, line: &mut Line) -> Result<Turn, NoMemory> {
    if let Some((device, sending)) = line.next_sender() {
        match sending {
            Sending::Waiting => line.dev_send(alloc, device, AtGateway::IsLost)?,
            Sending::Repeat => line.dev_repeat(device, AtGateway::IsLost)?,
            Sending::Closing => line.dev_close(alloc, device)?,
        }
        return Ok(Turn::Device(sending));
    }
    match line.gateway_expire() {
        Due::Nothing => {}
        due => return Ok(Turn::Gateway(due)),
    }
    if let Some(end) = line.deadline() {
        let _ = line.pass(end.saturating_sub(line.now()));
    }
    Ok(Turn::Waits)
}

#[test]
fn an_answer_that_nobody_hears_is_repeated(rt: HostRuntime) -> Result<(), Fail> {
    let line = &mut line(rt.alloc())?;
    send(line, &IpFrame::ConnectRequest);
    arrive(line)?;
    assert!(rt; get(line).is_some());
    ask(rt.alloc(), line, 0, &T_CONNECT)?;
    ask(rt.alloc(), line, 1, &READ)?;
    assert!(rt; !line.is_settled());
    let rows = [
        (0, Turn::Device(Sending::Waiting)),
        (0, Turn::Device(Sending::Waiting)),
        (3000, Turn::Waits),
        (3000, Turn::Device(Sending::Repeat)),
        (6000, Turn::Waits),
        (6000, Turn::Device(Sending::Repeat)),
        (9000, Turn::Waits),
        (9000, Turn::Device(Sending::Repeat)),
        (15000, Turn::Waits),
        (15000, Turn::Device(Sending::Closing)),
        (15000, Turn::Device(Sending::Waiting)),
        (120000, Turn::Waits),
        (120000, Turn::Gateway(Due::Closed)),
        (120000, Turn::Waits),
    ];
    for row in &rows {
        let turn = go_on(rt.alloc(), line)?;
        assert_eq!(rt; (line.now(), turn), *row);
    }
    assert_eq!(rt; line.gateway_due(), Due::Nothing);
    assert!(rt; line.deadline().is_none() && !line.has_channel());
    Ok(())
}

#[test]
fn a_connect_request_comes_again_once(rt: HostRuntime) -> Result<(), Fail> {
    let line = &mut line(rt.alloc())?;
    assert!(rt; line.is_settled() && line.can_count());
    send(line, &IpFrame::ConnectRequest);
    if let Some(age) = line.next_up() {
        assert!(rt; line.is_connect(age));
        assert_eq!(rt; line.number_up(age), 1);
        line.up(age)?;
    }
    assert!(rt; line.has_channel());
    assert_eq!(rt; line.age_up(1), Some(0));
    assert_eq!(rt; line.again_up(1), Some(0));
    if let Some(age) = line.again_up(1) {
        line.up(age)?;
    }
    assert_eq!(rt; line.again_up(1), None);
    assert_eq!(rt; (line.number_down(0), line.age_down(1)), (2, Some(1)));
    assert_eq!(rt; (line.next_down(), line.next_served()), (Some(1), Some(1)));
    assert_eq!(rt; (line.again_down(1), line.again_served(1)), (None, None));
    Ok(())
}

#[test]
fn power_fails_in_a_write(rt: HostRuntime) -> Result<(), Fail> {
    let line = &mut line(rt.alloc())?;
    send(line, &IpFrame::ConnectRequest);
    arrive(line)?;
    assert!(rt; get(line).is_some());
    ask(rt.alloc(), line, 0, &T_CONNECT)?;
    let request = IpFrame::TunnellingRequest {
        channel: 1,
        number: 1,
        cemi: to_device(&START_LOADING),
    };
    send(line, &request);
    arrive(line)?;
    assert!(rt; matches!(line.would_write(), Some(WriteKind::Load)) && line.would_be_taken());
    assert_eq!(rt; line.torn_octets(rt.alloc(), 0)?.as_slice().len(), 0);
    if line.would_write().is_some() {
        line.bus_torn(0)?;
    }
    assert!(rt; line.frame_due().is_none() && line.last(DEVICE.raw).is_none());
    line.on(DEVICE.raw);
    line.cut(DEVICE.raw);
    assert!(rt; line.next_sender().is_none() && !line.would_be_taken_again(DEVICE.raw));
    assert!(rt; line.would_write_again(DEVICE.raw).is_none());
    line.gateway_close();
    assert!(rt; !line.has_channel());
    Ok(())
}

#[test]
fn a_connect_request_is_refused_and_lost(rt: HostRuntime) -> Result<(), Fail> {
    let line = &mut line(rt.alloc())?;
    line.send_from(7, encode(&IpFrame::ConnectRequest).as_slice());
    if let Some(age) = line.next_up() {
        line.up_refused(age, 0x24);
    }
    assert!(rt; get(line).is_some() && !line.has_channel());
    send(line, &IpFrame::ConnectRequest);
    line.lose_up(0);
    assert_eq!(rt; line.next_up(), None);
    send(line, &IpFrame::ConnectRequest);
    arrive(line)?;
    line.lose_down(0);
    assert_eq!(rt; line.next_down(), None);
    if line.can_count() {
        line.renew();
    }
    send(line, &IpFrame::ConnectRequest);
    arrive(line)?;
    assert!(rt; get(line).is_some());
    assert_eq!(rt; line.made(), 2);
    line.gateway_again()?;
    line.bus_again(rt.alloc(), DEVICE.raw)?;
    assert!(rt; line.is_settled() && line.device(DEVICE.raw).is_some());
    Ok(())
}
