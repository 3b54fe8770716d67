//! The bodies that name a channel: a request with the control endpoint, and a response with a status.

ghost use Rattle.std.specs.Prelude.{◌≡◌, ◌∷◌, ◌++◌, [], length, IsTrue, ◌↔◌};
ghost use Rattle.knx_model.specs.Apdu.{word};
ghost use Rattle.knx_model.specs.KnxNetIp.{IsOfChannel, endpoint};

use crate::{endpoint, header};
use knx_model::Datagram;

/// Whether this is the body of a request: channel, a reserved octet and an endpoint.
pub fn is_request(body: &[u8]) -> bool
    ensures { IsTrue result ↔ IsOfChannel body.now }
{
    body.len() == 10 && endpoint::is_at(body, 2)
}

/// A request of a service.
pub fn write_request(service: u16, channel: u8) -> Datagram
    ensures { result ≡ 0x06 ∷ 0x10 ∷ (word service ++ word 16 ++ channel ∷ 0x00 ∷ endpoint) }
{
    let mut out = header::write(service, 10);
    out.extend(&[channel, 0x00]);
    endpoint::push(&mut out);
    out
}

/// A response of a service: channel and status.
pub fn write_response(service: u16, channel: u8, status: u8) -> Datagram
    ensures { result ≡ 0x06 ∷ 0x10 ∷ (word service ++ word 8 ++ channel ∷ status ∷ []) }
{
    let mut out = header::write(service, 2);
    out.extend(&[channel, status]);
    out
}
