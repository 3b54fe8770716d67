//! Worn memory, which keeps other octets than were sent.

ghost use Rattle.std.specs.Prelude.{◌≡◌, ◌≤◌, length};
ghost use Rattle.knx_model.specs.Apdu.{most_octets};
ghost use Rattle.knx_model.specs.DeviceFrames.{complements};

use knx_model::ApduOctets;

/// How memory keeps what is written to it.
#[derive(Clone, Copy, Drop)]
pub enum Memory {
    /// As it was sent.
    Sound,
    /// The complement of each octet.
    Worn,
}

/// The complement of each octet.
pub fn complements(octets: &[u8]) -> ApduOctets
    requires { length octets.now ≤ most_octets }
    ensures { result ≡ complements octets.now }
{
    let mut all = ApduOctets::new();
    for octet in octets {
        all.push(255 - *octet);
    }
    all
}
