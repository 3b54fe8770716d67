//! The gateway's end, state by frame and state by time (ISO 22510, Core and Tunnelling).

ghost use Rattle.std.specs.Prelude.{◌≤◌};

use self::At::{Closed, Idle, Waiting};
use tunnel_gateway::{
    Datagram, GatewayEnd, GatewayExpired, GatewayTook, IndAddr, IpFrame, PutRefused,
};

const TUNNEL: IndAddr = IndAddr { raw: 0x11FF };

const CLIENT: u64 = 7;

const OTHER: u64 = 8;

/// T_Connect to 1.1.5, as L_Data.req.
const CEMI: [u8; 10] = [0x11, 0x00, 0xBC, 0x60, 0x00, 0x00, 0x11, 0x05, 0x00, 0x80];

/// The states of the machine.
#[derive(Clone, Copy, Debug, Drop, PartialEq, Eq)]
enum At {
    Closed,
    /// Channel 1 of the client, which expects number 1.
    Idle,
    /// The same, with its first tunnelling request, whose number is 0, outstanding since time 0.
    Waiting,
}

fn octets<const N: usize>(octets: [u8; N]) -> Datagram
    requires { N ≤ 300 }
{
    Datagram::from_slice(&octets)
}

// ---- frames of the client

fn connect() -> IpFrame {
    IpFrame::ConnectRequest
}

fn state(channel: u8) -> IpFrame {
    IpFrame::StateRequest { channel }
}

fn disconnect(channel: u8) -> IpFrame {
    IpFrame::DisconnectRequest { channel }
}

fn request(channel: u8, number: u8) -> IpFrame {
    IpFrame::TunnellingRequest {
        channel,
        number,
        cemi: octets(CEMI),
    }
}

fn ack(channel: u8, number: u8, status: u8) -> IpFrame {
    IpFrame::TunnellingAck {
        channel,
        number,
        status,
    }
}

// ---- what the end makes of them

fn nothing() -> GatewayTook {
    GatewayTook {
        send: None,
        acted: None,
    }
}

fn sent<const N: usize>(datagram: [u8; N]) -> GatewayTook
    requires { N ≤ 300 }
{
    GatewayTook {
        send: Some(octets(datagram)),
        acted: None,
    }
}

fn connected(channel: u8) -> GatewayTook {
    sent([
        0x06, 0x10, 0x02, 0x06, 0x00, 0x14, channel, 0x00, 0x08, 0x01, 0, 0, 0, 0, 0, 0, 0x04,
        0x04, 0x11, 0xFF,
    ])
}

fn alive(channel: u8) -> GatewayTook {
    sent([0x06, 0x10, 0x02, 0x08, 0x00, 0x08, channel, 0x00])
}

fn left(channel: u8, status: u8) -> GatewayTook {
    sent([0x06, 0x10, 0x02, 0x0A, 0x00, 0x08, channel, status])
}

fn again(number: u8) -> GatewayTook {
    sent([0x06, 0x10, 0x04, 0x21, 0x00, 0x0A, 0x04, 1, number, 0x00])
}

fn acted(number: u8) -> GatewayTook {
    GatewayTook {
        send: again(number).send,
        acted: Some(octets(CEMI)),
    }
}

// ---- what becomes due

fn farewell() -> Datagram {
    octets([
        0x06, 0x10, 0x02, 0x09, 0x00, 0x10, 1, 0x00, 0x08, 0x01, 0, 0, 0, 0, 0, 0,
    ])
}

fn closes() -> GatewayExpired {
    GatewayExpired::Closed(farewell())
}

fn repeats() -> GatewayExpired {
    GatewayExpired::Repeat(octets([
        0x06, 0x10, 0x04, 0x20, 0x00, 0x14, 0x04, 1, 0, 0x00, 0x11, 0x00, 0xBC, 0x60, 0x00, 0x00,
        0x11, 0x05, 0x00, 0x80,
    ]))
}

fn waits() -> GatewayExpired {
    GatewayExpired::Nothing
}

// ---- states

fn end_at(at: At) -> GatewayEnd {
    let mut end = GatewayEnd::new(TUNNEL);
    if at != Closed {
        let _ = end.take(CLIENT, &connect(), 0);
        let _ = end.take(CLIENT, &request(1, 0), 0);
    }
    if at == Waiting {
        let _ = end.put(&CEMI, 0);
    }
    end
}

/// The state, told by what a request is answered.
fn state_of(mut end: GatewayEnd) -> At {
    match end.put(&CEMI, 0) {
        Ok(_) => Idle,
        Err(PutRefused::Busy) => Waiting,
        Err(PutRefused::NotUp) => Closed,
    }
}

#[test]
fn each_state_takes_each_frame(rt: HostRuntime) {
    let rows: [(At, u64, IpFrame, GatewayTook, At); 30] = [
        (Closed, CLIENT, connect(), connected(1), Idle),
        (Closed, CLIENT, state(1), nothing(), Closed),
        (Closed, CLIENT, disconnect(1), left(1, 0x21), Closed),
        (Closed, CLIENT, request(1, 0), nothing(), Closed),
        (Closed, CLIENT, ack(1, 0, 0), nothing(), Closed),
        (Idle, CLIENT, connect(), connected(1), Idle),
        (Idle, OTHER, connect(), connected(2), Idle),
        (Idle, CLIENT, state(1), alive(1), Idle),
        (Idle, CLIENT, state(2), nothing(), Idle),
        (Idle, OTHER, state(1), nothing(), Idle),
        (Idle, CLIENT, disconnect(1), left(1, 0x00), Closed),
        (Idle, CLIENT, disconnect(2), left(2, 0x21), Idle),
        (Idle, OTHER, disconnect(1), left(1, 0x21), Idle),
        (Idle, CLIENT, request(1, 1), acted(1), Idle),
        (Idle, CLIENT, request(1, 0), again(0), Idle),
        (Idle, CLIENT, request(1, 2), nothing(), Idle),
        (Idle, CLIENT, request(2, 1), nothing(), Idle),
        (Idle, OTHER, request(1, 1), nothing(), Idle),
        (Idle, CLIENT, ack(1, 0, 0), nothing(), Idle),
        (Waiting, CLIENT, connect(), connected(1), Waiting),
        (Waiting, OTHER, connect(), connected(2), Idle),
        (Waiting, CLIENT, state(1), alive(1), Waiting),
        (Waiting, CLIENT, disconnect(1), left(1, 0x00), Closed),
        (Waiting, CLIENT, request(1, 1), acted(1), Waiting),
        (Waiting, CLIENT, request(1, 0), again(0), Waiting),
        (Waiting, CLIENT, ack(1, 0, 0), nothing(), Idle),
        (Waiting, CLIENT, ack(1, 0, 0x29), nothing(), Waiting),
        (Waiting, CLIENT, ack(1, 1, 0), nothing(), Waiting),
        (Waiting, CLIENT, ack(2, 0, 0), nothing(), Waiting),
        (Waiting, OTHER, ack(1, 0, 0), nothing(), Waiting),
    ];
    for (at, from, frame, took, after) in rows {
        let mut end = end_at(at);
        assert_eq!(rt;
            end.take(from, &frame, 0),
            took,
            "{at:?}, {from}: {frame:?}"
        );
        assert_eq!(rt; state_of(end), after, "{at:?}, {from}: {frame:?}");
    }
}

#[test]
fn responses_are_dropped(rt: HostRuntime) {
    let frames = [
        IpFrame::ConnectResponse {
            channel: 1,
            status: 0,
            tunnel: Some(TUNNEL),
        },
        IpFrame::StateResponse {
            channel: 1,
            status: 0,
        },
        IpFrame::DisconnectResponse {
            channel: 1,
            status: 0,
        },
    ];
    let mut end = end_at(Waiting);
    for frame in frames {
        assert_eq!(rt; end.take(CLIENT, &frame, 0), nothing());
    }
    assert_eq!(rt; state_of(end), Waiting);
}

#[test]
fn a_request_that_comes_twice_acts_once(rt: HostRuntime) {
    let mut end = end_at(Idle);
    for took in [acted(1), again(1)] {
        assert_eq!(rt; end.take(CLIENT, &request(1, 1), 0), took);
    }
}

#[test]
fn each_state_by_time(rt: HostRuntime) {
    let rows: [(At, Option<u64>, u64, GatewayExpired, At); 7] = [
        (Closed, None, u64::MAX, waits(), Closed),
        (Idle, Some(120_000), 119_999, waits(), Idle),
        (Idle, Some(120_000), 120_000, closes(), Closed),
        (Waiting, Some(1_000), 999, waits(), Waiting),
        (Waiting, Some(1_000), 1_000, repeats(), Waiting),
        (Waiting, Some(1_000), 119_999, repeats(), Waiting),
        (Waiting, Some(1_000), 120_000, closes(), Closed),
    ];
    for (at, deadline, now, expired, after) in rows {
        let mut end = end_at(at);
        assert_eq!(rt; end.deadline(), deadline, "{at:?}");
        assert_eq!(rt; end.expire(now), expired, "{at:?} at {now}");
        assert_eq!(rt; state_of(end), after, "{at:?} at {now}");
    }
}

#[test]
fn a_request_is_sent_twice_and_then_the_channel_closes(rt: HostRuntime) {
    let rows: [(u64, Option<u64>, GatewayExpired); 4] = [
        (1_000, Some(2_000), repeats()),
        (1_999, Some(2_000), waits()),
        (2_000, None, closes()),
        (3_000, None, waits()),
    ];
    let mut end = end_at(Waiting);
    for (now, deadline, expired) in rows {
        assert_eq!(rt; end.expire(now), expired, "at {now}");
        assert_eq!(rt; end.deadline(), deadline, "after {now}");
    }
}

#[test]
fn a_channel_is_shut_by_a_disconnect_request(rt: HostRuntime) {
    let mut end = end_at(Waiting);
    end.has_numbers();
    assert_eq!(rt; end.endpoint(), Some(CLIENT));
    assert_eq!(rt; end.shut(), Some(farewell()));
    assert_eq!(rt; end.shut(), None);
    assert_eq!(rt; end.endpoint(), None);
}

#[test]
fn channels_are_numbered_from_1_to_255_and_from_1_again(rt: HostRuntime) {
    let mut end = GatewayEnd::new(TUNNEL);
    for place in 0..256_u64 {
        let number = (1 + place % 255) as u8;
        let took = end.take(place, &connect(), 0);
        assert_eq!(rt; took, connected(number), "at {place}");
    }
}
