//! TUNNELLING_REQUEST and TUNNELLING_ACK (ISO 22510, Tunnelling): a cEMI frame in a channel, and its acknowledgement.

ghost use Rattle.std.specs.Prelude.{◌≡◌, ◌+◌, ◌≤◌, length, IfSome, IfNone};
ghost use Rattle.knx_model.specs.KnxNetIp.{ReadsBody, IsBody, Written};

use crate::{header, service};
use knx_model::{Datagram, IpFrame};

/// The length of the connection header: itself, channel, sequence counter, and a reserved octet or a status.
const CONNECTION_HEADER_LENGTH: u8 = 0x04;
/// How many octets a cEMI frame has at most.
const MOST_CEMI: usize = 290;

/// Reads a request with a cEMI frame of 1 to 290 octets.
pub fn read_request(body: &[u8]) -> Option<IpFrame>
    ensures some { IfSome result (λ frame. ReadsBody 0x0420 body.now frame) }
    ensures none { IfNone result (¬ IsBody 0x0420 body.now) }
{
    match body {
        [CONNECTION_HEADER_LENGTH, channel, number, _, cemi @ ..] => {
            if cemi.is_empty() || cemi.len() > MOST_CEMI {
                return None;
            }
            Some(IpFrame::TunnellingRequest {
                channel: *channel,
                number: *number,
                cemi: Datagram::from_slice(cemi),
            })
        }
        _ => None,
    }
}

/// Reads an acknowledgement.
pub fn read_ack(body: &[u8]) -> Option<IpFrame>
    ensures some { IfSome result (λ frame. ReadsBody 0x0421 body.now frame) }
    ensures none { IfNone result (¬ IsBody 0x0421 body.now) }
{
    match body {
        [CONNECTION_HEADER_LENGTH, channel, number, status] => Some(IpFrame::TunnellingAck {
            channel: *channel,
            number: *number,
            status: *status,
        }),
        _ => None,
    }
}

/// Writes a request.
pub fn write_request(channel: u8, number: u8, cemi: &Datagram) -> Datagram
    requires { length cemi.now ≤ 290 }
    ensures { result ≡ Written (IpFrame.TunnellingRequest channel number cemi.now) }
{
    let cemi = cemi.as_slice();
    let mut out = header::write(service::TUNNELLING_REQUEST, 4 + cemi.len() as u16);
    out.extend(&[CONNECTION_HEADER_LENGTH, channel, number, 0x00]);
    out.extend(cemi);
    out
}

/// Writes an acknowledgement.
pub fn write_ack(channel: u8, number: u8, status: u8) -> Datagram
    ensures { result ≡ Written (IpFrame.TunnellingAck channel number status) }
{
    let mut out = header::write(service::TUNNELLING_ACK, 4);
    out.extend(&[CONNECTION_HEADER_LENGTH, channel, number, status]);
    out
}
