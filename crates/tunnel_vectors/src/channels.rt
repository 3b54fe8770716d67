//! The client's end of a tunnel, call by call (ISO 22510, Core and Tunnelling). The channel has the number 7.

ghost use Rattle.std.specs.Prelude.{◌≤◌};
ghost use Rattle.line_model.specs.ClientEnd.{IsCemi};
ghost use Rattle.line_model.specs.ClientFrames.{HasTunnelIfUp};

use knx_model::{Datagram, IndAddr, IpFrame};
use tunnel_channel::{Channel, ChannelTook};

mod states;
mod waits;

const TUNNEL: IndAddr = IndAddr { raw: 0x11FF };

/// An L_Data.req with a T_Connect.
const CEMI: [u8; 10] = [0x11, 0x00, 0xBC, 0x60, 0x00, 0x00, 0x11, 0x05, 0x00, 0x80];

/// A frame of the gateway.
#[derive(Clone, Copy, Debug)]
enum From {
    Response(u8),
    State(u8, u8),
    Disconnect(u8),
    Disconnected(u8),
    Request(u8, u8),
    Ack(u8, u8, u8),
    ConnectRequest,
    StateRequest,
}

fn frame(from: From) -> IpFrame
    ensures { HasTunnelIfUp result }
{
    match from {
        From::Response(0) => IpFrame::ConnectResponse {
            channel: 7,
            status: 0,
            tunnel: Some(TUNNEL),
        },
        From::Response(status) => IpFrame::ConnectResponse {
            channel: 0,
            status,
            tunnel: None,
        },
        From::State(channel, status) => IpFrame::StateResponse { channel, status },
        From::Disconnect(channel) => IpFrame::DisconnectRequest { channel },
        From::Disconnected(channel) => IpFrame::DisconnectResponse { channel, status: 0 },
        From::Request(channel, number) => IpFrame::TunnellingRequest {
            channel,
            number,
            cemi: octets(CEMI),
        },
        From::Ack(channel, number, status) => IpFrame::TunnellingAck {
            channel,
            number,
            status,
        },
        From::ConnectRequest => IpFrame::ConnectRequest,
        From::StateRequest => IpFrame::StateRequest { channel: 7 },
    }
}

fn octets<const N: usize>(octets: [u8; N]) -> Datagram
    requires { N ≤ 300 }
{
    Datagram::from_slice(&octets)
}

fn ack(number: u8) -> Datagram {
    octets([0x06, 0x10, 0x04, 0x21, 0x00, 0x0A, 0x04, 0x07, number, 0x00])
}

fn given(number: u8) -> ChannelTook {
    ChannelTook::Cemi {
        octets: octets(CEMI),
        ack: ack(number),
    }
}

fn again(number: u8) -> ChannelTook {
    ChannelTook::Again { ack: ack(number) }
}

/// What a request can carry.
fn connecting() -> [u8; 10]
    ensures { IsCemi result }
{
    CEMI
}

/// The request with this number.
fn request(number: u8) -> Datagram {
    octets([
        0x06, 0x10, 0x04, 0x20, 0x00, 0x14, 0x04, 0x07, number, 0x00, 0x11, 0x00, 0xBC, 0x60, 0x00,
        0x00, 0x11, 0x05, 0x00, 0x80,
    ])
}

fn heartbeat() -> Datagram {
    octets([
        0x06, 0x10, 0x02, 0x07, 0x00, 0x10, 0x07, 0x00, 0x08, 0x01, 0x00, 0x00, 0x00, 0x00, 0x00,
        0x00,
    ])
}

fn disconnect_request() -> Datagram {
    octets([
        0x06, 0x10, 0x02, 0x09, 0x00, 0x10, 0x07, 0x00, 0x08, 0x01, 0x00, 0x00, 0x00, 0x00, 0x00,
        0x00,
    ])
}

/// The answer to the gateway's disconnect request.
fn closed() -> ChannelTook {
    ChannelTook::Gone {
        answer: Some(octets([0x06, 0x10, 0x02, 0x0A, 0x00, 0x08, 0x07, 0x00])),
    }
}

fn gone() -> ChannelTook {
    ChannelTook::Gone { answer: None }
}

/// Where a row begins.
#[derive(Clone, Copy, Debug)]
enum At {
    Idle,
    Seeking,
    Open,
    /// A request was put at 0.
    Asking,
    /// A heartbeat was sent at 60,000.
    Beating,
    Leaving,
    Lost,
}

fn seeking() -> Channel {
    let mut channel = Channel::new();
    let _ = channel.connect(0);
    channel
}

fn open() -> Channel {
    let mut channel = seeking();
    let _ = channel.take(&frame(From::Response(0)), 0);
    channel
}

fn channel(at: At) -> Channel {
    let mut channel = match at {
        At::Idle => Channel::new(),
        At::Seeking => seeking(),
        At::Open | At::Asking | At::Beating | At::Leaving | At::Lost => open(),
    };
    match at {
        At::Asking => {
            let _ = channel.put(&connecting(), 0);
        }
        At::Beating => {
            let _ = channel.expire(60_000);
        }
        At::Leaving => {
            let _ = channel.leave();
        }
        At::Lost => {
            let _ = channel.put(&connecting(), 0);
            let _ = channel.expire(1_000);
            let _ = channel.expire(2_000);
        }
        At::Idle | At::Seeking | At::Open => {}
    }
    channel
}
