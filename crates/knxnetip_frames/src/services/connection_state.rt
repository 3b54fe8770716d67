//! CONNECTIONSTATE_REQUEST and CONNECTIONSTATE_RESPONSE (ISO 22510, Core): the heartbeat of a channel.

ghost use Rattle.std.specs.Prelude.{◌≡◌, IfSome, IfNone};
ghost use Rattle.knx_model.specs.KnxNetIp.{ReadsBody, IsBody, Written};

use crate::service;
use crate::services::channel;
use knx_model::{Datagram, IpFrame};

/// Reads a request.
pub fn read_request(body: &[u8]) -> Option<IpFrame>
    ensures some { IfSome result (λ frame. ReadsBody 0x0207 body.now frame) }
    ensures none { IfNone result (¬ IsBody 0x0207 body.now) }
{
    if channel::is_request(body) {
        Some(IpFrame::StateRequest { channel: body[0] })
    } else {
        None
    }
}

/// Reads a response.
pub fn read_response(body: &[u8]) -> Option<IpFrame>
    ensures some { IfSome result (λ frame. ReadsBody 0x0208 body.now frame) }
    ensures none { IfNone result (¬ IsBody 0x0208 body.now) }
{
    match body {
        [channel, status] => Some(IpFrame::StateResponse {
            channel: *channel,
            status: *status,
        }),
        _ => None,
    }
}

/// Writes a request.
pub fn write_request(channel: u8) -> Datagram
    ensures { result ≡ Written (IpFrame.StateRequest channel) }
{
    channel::write_request(service::CONNECTIONSTATE_REQUEST, channel)
}

/// Writes a response.
pub fn write_response(channel: u8, status: u8) -> Datagram
    ensures { result ≡ Written (IpFrame.StateResponse channel status) }
{
    channel::write_response(service::CONNECTIONSTATE_RESPONSE, channel, status)
}
