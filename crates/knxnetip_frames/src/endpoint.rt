//! Endpoints (ISO 22510, Core, HPAI): `08 01`, an IPv4 address and a port of UDP.

ghost use Rattle.std.specs.Prelude.{◌+◌, ◌<◌, ◌≤◌, ◌≡◌, ◌++◌, length, IsTrue, ◌↔◌};
ghost use Rattle.knx_model.specs.KnxNetIp.{IsEndpointAt, endpoint};

use knx_model::Datagram;

/// The length of an endpoint.
const LENGTH: u8 = 0x08;
/// IPv4 over UDP.
const IPV4_UDP: u8 = 0x01;

/// Whether an endpoint stands at a place, with any address and port.
pub fn is_at(body: &[u8], i: usize) -> bool
    requires { i + 1 < length body.now }
    ensures { IsTrue result ↔ IsEndpointAt body.now i }
{
    body[i] == LENGTH && body[i + 1] == IPV4_UDP
}

/// Appends an endpoint of zeros, which asks for an answer to the sender's address.
pub fn push(out: &mut Datagram)
    requires { length out.old ≤ 200 }
    ensures { out.new ≡ out.old ++ endpoint }
{
    out.extend(&[LENGTH, IPV4_UDP, 0, 0, 0, 0, 0, 0]);
}
