//! The device information (ISO 22510, Core): medium, status, individual address, project number, serial number, multicast address, MAC address
//! and name.

ghost use Rattle.std.specs.Prelude.{◌≡◌, ◌+◌, ◌≤◌, ◌++◌, length, take, drop};
ghost use Rattle.discovery.specs.Discovery.{HasFields, IsInformation, block_octets, information_of};

use crate::about::About;
use crate::families::Families;
use knx_model::{Datagram, IndAddr};

/// DEVICE_INFO.
pub const TYPE: u8 = 0x01;
/// How many octets it has behind length and type.
pub const OCTETS: usize = 52;
/// Its length, with length and type.
const LENGTH: u8 = 0x36;

/// So many octets from a place on.
fn octets_at<const N: usize>(content: &[u8], at: usize) -> [u8; N]
    requires { at + N ≤ length content.now }
    ensures { result ≡ take N (drop at content.now) }
{
    let mut octets = [0; N];
    octets.copy_from_slice(&content[at..at + N]);
    octets
}

/// Reads what a gateway tells of itself; its service families are those given.
pub fn read(content: &[u8], families: Families) -> About
    requires { length content.now ≡ 52 }
    ensures read { IsInformation content.now result }
    ensures families { result.families ≡ families }
{
    About {
        medium: content[0],
        status: content[1],
        address: IndAddr {
            raw: u16::from_be_bytes([content[2], content[3]]),
        },
        project: u16::from_be_bytes([content[4], content[5]]),
        serial: octets_at(content, 6),
        multicast: octets_at(content, 12),
        mac: octets_at(content, 16),
        name: octets_at(content, 22),
        families,
    }
}

/// Appends what a gateway tells of itself, its service families aside.
pub fn push(out: &mut Datagram, about: &About)
    requires { length out.old ≤ 200 }
    ensures pushed { out.new ≡ out.old ++ block_octets (information_of about.now) }
    ensures length { length out.new ≡ length out.old + 54 }
    ensures fields { HasFields about.now }
{
    out.extend(&[LENGTH, TYPE, about.medium, about.status]);
    out.extend(&about.address.raw.to_be_bytes());
    out.extend(&about.project.to_be_bytes());
    out.extend(&about.serial);
    out.extend(&about.multicast);
    out.extend(&about.mac);
    out.extend(&about.name);
}
