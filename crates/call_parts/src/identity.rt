//! What the simulated gateway names and tells of itself at the port where it is served.

ghost use Rattle.std.specs.Prelude.{◌≡◌};
ghost use Rattle.call_parts.specs.Identity.{about_gateway, own_endpoint};
ghost use Rattle.call_parts.specs.Names.{address_of};

use crate::host::GatewayAddress;
use discovery_ends::{About, Families, NOWHERE};
use knx_model::IndAddr;

/// The KNX medium TP1.
const TWISTED_PAIR: u8 = 0x02;

/// Its serial number, and its MAC address.
const NUMBER: [u8; 6] = [0, 0, 0, 0, 0, 1];

/// The multicast group that is registered for KNXnet/IP: 224.0.23.12.
const MULTICAST: [u8; 4] = [0xE0, 0x00, 0x17, 0x0C];

/// Its name.
const NAME: [u8; 30] = *b"knx\0\0\0\0\0\0\0\0\0\0\0\0\0\0\0\0\0\0\0\0\0\0\0\0\0\0\0";

/// Core, device management and tunnelling, each in version 1.
const FAMILIES: [(u8, u8); 3] = [(0x02, 1), (0x03, 1), (0x04, 1)];

/// What it tells of itself, where its tunnel has this address.
pub fn about_gateway(tunnel: IndAddr) -> About
    ensures { result ≡ about_gateway tunnel }
{
    About {
        medium: TWISTED_PAIR,
        status: 0,
        address: tunnel,
        project: 0,
        serial: NUMBER,
        multicast: MULTICAST,
        mac: NUMBER,
        name: NAME,
        families: Families::from_slice(&FAMILIES),
    }
}

/// The address and port number that it names, in an endpoint's octets: those that it is bound to; 0.0.0.0:0 where it is bound to each address of
/// its host.
pub fn own_endpoint(at: GatewayAddress) -> [u8; 6]
    ensures { result ≡ own_endpoint (address_of at) }
{
    if at.host == [0; 4] {
        return NOWHERE;
    }
    let [a, b, c, d] = at.host;
    let [high, low] = at.port.to_be_bytes();
    [a, b, c, d, high, low]
}
