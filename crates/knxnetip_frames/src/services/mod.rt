//! The services (ISO 22510, Core and Tunnelling): for each pair of request and response one file, which reads and writes both.

ghost use Rattle.std.specs.Prelude.{◌≡◌, IfSome, IfNone};
ghost use Rattle.knx_model.specs.KnxNetIp.{ReadsBody, IsBody, IsInRange, Written};
ghost use Rattle.knxnetip_frames.specs.Services.{identifier_of};

mod channel;
mod connect;
mod connection_state;
mod disconnect;
mod tunnelling;

use crate::service::Service;
use knx_model::{Datagram, IpFrame};

/// The frame of a service with this body; None exactly where it is no body of the service.
pub fn read(service: Service, body: &[u8]) -> Option<IpFrame>
    ensures some { IfSome result (λ frame. ReadsBody (identifier_of service) body.now frame) }
    ensures none { IfNone result (¬ IsBody (identifier_of service) body.now) }
{
    match service {
        Service::ConnectRequest => connect::read_request(body),
        Service::ConnectResponse => connect::read_response(body),
        Service::StateRequest => connection_state::read_request(body),
        Service::StateResponse => connection_state::read_response(body),
        Service::DisconnectRequest => disconnect::read_request(body),
        Service::DisconnectResponse => disconnect::read_response(body),
        Service::TunnellingRequest => tunnelling::read_request(body),
        Service::TunnellingAck => tunnelling::read_ack(body),
    }
}

/// The octets of a frame.
pub fn write(frame: &IpFrame) -> Datagram
    requires { IsInRange frame.now }
    ensures { result ≡ Written frame.now }
{
    match frame {
        IpFrame::ConnectRequest => connect::write_request(),
        IpFrame::ConnectResponse {
            channel,
            tunnel: Some(tunnel),
            ..
        } => connect::write_tunnel(*channel, *tunnel),
        IpFrame::ConnectResponse { status, .. } => connect::write_refusal(*status),
        IpFrame::StateRequest { channel } => connection_state::write_request(*channel),
        IpFrame::StateResponse { channel, status } => connection_state::write_response(
            *channel, *status,
        ),
        IpFrame::DisconnectRequest { channel } => disconnect::write_request(*channel),
        IpFrame::DisconnectResponse { channel, status } => disconnect::write_response(
            *channel, *status,
        ),
        IpFrame::TunnellingRequest {
            channel,
            number,
            cemi,
        } => tunnelling::write_request(*channel, *number, cemi),
        IpFrame::TunnellingAck {
            channel,
            number,
            status,
        } => tunnelling::write_ack(*channel, *number, *status),
    }
}
