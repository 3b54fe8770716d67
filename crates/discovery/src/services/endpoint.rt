//! The endpoint of who asks or answers (ISO 22510, Core, HPAI): `08 01`, an IPv4 address and a port of UDP.

ghost use Rattle.std.specs.Prelude.{◌≡◌, ◌≤◌, length, drop, IsTrue, ◌↔◌};
ghost use Rattle.knx_model.specs.KnxNetIp.{endpoint};
ghost use Rattle.discovery.specs.Discovery.{BeginsWithEndpoint};

use knx_model::Datagram;

/// The length of an endpoint.
pub const LENGTH: usize = 8;
/// IPv4 over UDP.
const IPV4_UDP: u8 = 0x01;

/// Whether an endpoint stands first, with any address and port.
pub fn is_first(body: &[u8]) -> bool
    ensures { IsTrue result ↔ BeginsWithEndpoint body.now }
{
    body.len() >= LENGTH && body[0] == LENGTH as u8 && body[1] == IPV4_UDP
}

/// What stands behind the first endpoint.
pub fn behind(body: &[u8]) -> &[u8]
    requires { 8 ≤ length body.now }
    ensures { result.now ≡ drop 8 body.now }
{
    &body[LENGTH..]
}

/// An endpoint of zeros, which asks for an answer to the sender's address.
pub fn written() -> Datagram
    ensures { result ≡ endpoint }
{
    Datagram::from_slice(&[LENGTH as u8, IPV4_UDP, 0, 0, 0, 0, 0, 0])
}
