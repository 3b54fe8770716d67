//! The datagrams that the gateway's end sends (ISO 22510, Core and Tunnelling).

ghost use Rattle.std.specs.Prelude.{◌≡◌, ◌≤◌, length, Some, None};
ghost use Rattle.knx_model.specs.KnxNetIp.{Written};

use knx_model::{Datagram, IndAddr, IpFrame};
use knxnetip_frames::{NO_ERROR, encode};
use line_model::GatewayTook;

/// E_CONNECTION_ID: there is no channel of this number.
pub const CONNECTION_ID: u8 = 0x21;

/// Nothing is sent, and nothing acted on.
pub fn dropped() -> GatewayTook
    ensures { result ≡ record { send = None; acted = None } }
{
    GatewayTook {
        send: None,
        acted: None,
    }
}

/// A datagram is sent, and nothing acted on.
pub fn answered(datagram: Datagram) -> GatewayTook
    ensures { result ≡ record { send = Some datagram; acted = None } }
{
    GatewayTook {
        send: Some(datagram),
        acted: None,
    }
}

/// CONNECT_RESPONSE that gives a channel and the tunnel's address.
pub fn connect_response(channel: u8, tunnel: IndAddr) -> Datagram
    ensures { result ≡ Written (IpFrame.ConnectResponse channel 0 (Some tunnel)) }
{
    encode(&IpFrame::ConnectResponse {
        channel,
        status: NO_ERROR,
        tunnel: Some(tunnel),
    })
}

/// CONNECTIONSTATE_RESPONSE of an open channel.
pub fn state_response(channel: u8) -> Datagram
    ensures { result ≡ Written (IpFrame.StateResponse channel 0) }
{
    encode(&IpFrame::StateResponse {
        channel,
        status: NO_ERROR,
    })
}

/// TUNNELLING_REQUEST.
pub fn request(channel: u8, number: u8, cemi: Datagram) -> Datagram
    requires least { 1 ≤ length cemi }
    requires most { length cemi ≤ 290 }
    ensures { result ≡ Written (IpFrame.TunnellingRequest channel number cemi) }
{
    encode(&IpFrame::TunnellingRequest {
        channel,
        number,
        cemi,
    })
}
