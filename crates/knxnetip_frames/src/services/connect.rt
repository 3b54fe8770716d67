//! CONNECT_REQUEST and CONNECT_RESPONSE (ISO 22510, Core): a channel for a tunnel on the link layer.

ghost use Rattle.std.specs.Prelude.{◌≡◌, ◌≢◌, Some, None, IfSome, IfNone};
ghost use Rattle.knx_model.specs.Octets.{word_at};
ghost use Rattle.knx_model.specs.KnxNetIp.{ReadsBody, IsBody, HasTunnel, Written};

use crate::{NO_ERROR, endpoint, header, service};
use knx_model::{Datagram, IndAddr, IpFrame};

/// The length of what a request and a response say of the connection.
const INFORMATION_LENGTH: u8 = 0x04;
/// TUNNEL_CONNECTION.
const TUNNEL_CONNECTION: u8 = 0x04;
/// TUNNEL_LINKLAYER.
const TUNNEL_LINKLAYER: u8 = 0x02;

/// Reads a request: control endpoint, data endpoint, and a tunnel on the link layer.
pub fn read_request(body: &[u8]) -> Option<IpFrame>
    ensures some { IfSome result (λ frame. ReadsBody 0x0205 body.now frame) }
    ensures none { IfNone result (¬ IsBody 0x0205 body.now) }
{
    if body.len() == 20
        && endpoint::is_at(body, 0)
        && endpoint::is_at(body, 8)
        && body[16] == INFORMATION_LENGTH
        && body[17] == TUNNEL_CONNECTION
        && body[18] == TUNNEL_LINKLAYER
    {
        Some(IpFrame::ConnectRequest)
    } else {
        None
    }
}

/// Reads a response: channel and status, and where the status is 0 the data endpoint and the tunnel's address.
pub fn read_response(body: &[u8]) -> Option<IpFrame>
    ensures some { IfSome result (λ frame. ReadsBody 0x0206 body.now frame) }
    ensures none { IfNone result (¬ IsBody 0x0206 body.now) }
{
    match body {
        [channel, NO_ERROR, ..] => Some(IpFrame::ConnectResponse {
            channel: *channel,
            status: NO_ERROR,
            tunnel: Some(tunnel_of(body)?),
        }),
        [channel, status, ..] => Some(IpFrame::ConnectResponse {
            channel: *channel,
            status: *status,
            tunnel: None,
        }),
        _ => None,
    }
}

/// The tunnel's address in the body of a response.
fn tunnel_of(body: &[u8]) -> Option<IndAddr>
    ensures some { IfSome result (λ tunnel. HasTunnel body.now × (tunnel.raw ≡ word_at body.now 12)) }
    ensures none { IfNone result (¬ HasTunnel body.now) }
{
    if body.len() == 14
        && endpoint::is_at(body, 2)
        && body[10] == INFORMATION_LENGTH
        && body[11] == TUNNEL_CONNECTION
    {
        Some(IndAddr {
            raw: u16::from_be_bytes([body[12], body[13]]),
        })
    } else {
        None
    }
}

/// Writes a request.
pub fn write_request() -> Datagram
    ensures { result ≡ Written IpFrame.ConnectRequest }
{
    let mut out = header::write(service::CONNECT_REQUEST, 20);
    endpoint::push(&mut out);
    endpoint::push(&mut out);
    out.extend(&[
        INFORMATION_LENGTH,
        TUNNEL_CONNECTION,
        TUNNEL_LINKLAYER,
        0x00,
    ]);
    out
}

/// Writes a response with the address of a tunnel.
pub fn write_tunnel(channel: u8, tunnel: IndAddr) -> Datagram
    ensures { result ≡ Written (IpFrame.ConnectResponse channel 0x00 (Some tunnel)) }
{
    let [high, low] = tunnel.raw.to_be_bytes();
    let mut out = header::write(service::CONNECT_RESPONSE, 14);
    out.extend(&[channel, NO_ERROR]);
    endpoint::push(&mut out);
    out.extend(&[INFORMATION_LENGTH, TUNNEL_CONNECTION, high, low]);
    out
}

/// Writes a response that gives no channel, and the status that says why.
pub fn write_refusal(status: u8) -> Datagram
    ensures { result ≡ Written (IpFrame.ConnectResponse 0 status None) }
{
    let mut out = header::write(service::CONNECT_RESPONSE, 2);
    out.extend(&[0x00, status]);
    out
}
