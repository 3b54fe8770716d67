//! The header of a frame (ISO 22510, Core): its length, the version, the service and the total length.

ghost use Rattle.std.specs.Prelude.{◌≡◌, ◌+◌, ◌≤◌, ◌++◌, ◌∷◌};
ghost use Rattle.knx_model.specs.Apdu.{word as written};

use knx_model::Datagram;

/// The length of a header.
pub const LENGTH: u8 = 0x06;
/// The version 1.0.
pub const VERSION: u8 = 0x10;

/// The header of a service whose body has this length.
pub fn write(service: u16, length: u16) -> Datagram
    requires { length ≤ 294 }
    ensures { result ≡ 0x06 ∷ 0x10 ∷ (written service ++ written (6 + length)) }
{
    let [service_high, service_low] = service.to_be_bytes();
    let [high, low] = (LENGTH as u16 + length).to_be_bytes();
    Datagram::from_slice(&[LENGTH, VERSION, service_high, service_low, high, low])
}
