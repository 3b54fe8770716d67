//! What a gateway tells of itself (ISO 22510, Core, device information and supported service families).

ghost use Rattle.std.specs.Prelude.{◌≡◌, ◌↔◌, IsTrue};
ghost use Rattle.discovery.specs.Same.{HasSameNumbers, HasSameOctets};

use crate::families::Families;
use knx_model::IndAddr;

/// What a gateway tells of itself.
#[derive(Drop)]
pub struct About {
    /// The KNX medium: 02 for twisted pair, 20 for IP (hexadecimal).
    pub medium: u8,
    /// The device status: bit 0 is set in programming mode.
    pub status: u8,
    /// Its individual address.
    pub address: IndAddr,
    /// The project installation identifier.
    pub project: u16,
    /// The KNX serial number.
    pub serial: [u8; 6],
    /// The IPv4 address of the multicast group that it routes to.
    pub multicast: [u8; 4],
    /// The MAC address.
    pub mac: [u8; 6],
    /// The name of the device; what is behind its end is 00.
    pub name: [u8; 30],
    /// The service families that it supports.
    pub families: Families,
}

impl About {
    /// Whether another is the same.
    #[tactic(auto, using(crate::proofs::Same::same_about))]
    pub fn is_same(&self, other: &About) -> bool
        ensures { IsTrue result ↔ (self.now ≡ other.now) }
    {
        has_same_numbers(self, other)
            && has_same_octets(self, other)
            && has_same_families(self, other)
    }
}

fn has_same_numbers(one: &About, other: &About) -> bool
    ensures { IsTrue result ↔ HasSameNumbers one.now other.now }
{
    one.medium == other.medium
        && one.status == other.status
        && one.address.raw == other.address.raw
        && one.project == other.project
}

fn has_same_octets(one: &About, other: &About) -> bool
    ensures { IsTrue result ↔ HasSameOctets one.now other.now }
{
    one.serial == other.serial
        && one.multicast == other.multicast
        && one.mac == other.mac
        && one.name == other.name
}

fn has_same_families(one: &About, other: &About) -> bool
    ensures { IsTrue result ↔ (one.now.families ≡ other.now.families) }
{
    one.families.as_slice() == other.families.as_slice()
}
