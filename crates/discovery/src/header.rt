//! The header of a frame (ISO 22510, Core): its length, the version, the service and the total length.

ghost use Rattle.std.specs.Prelude.{◌≡◌, ◌+◌, ◌≤◌, ◌++◌, ◌∷◌, length};
ghost use Rattle.knx_model.specs.Apdu.{word};

use knx_model::Datagram;

/// The length of a header.
pub const LENGTH: u8 = 0x06;
/// The version 1.0.
pub const VERSION: u8 = 0x10;

/// The frame of a service with this body.
pub fn framed(service: u16, body: &Datagram) -> Datagram
    requires { length body.now ≤ 294 }
    ensures { result ≡ 0x06 ∷ 0x10 ∷ (word service ++ word (6 + length body.now) ++ body.now) }
{
    let body = body.as_slice();
    let [service_high, service_low] = service.to_be_bytes();
    let [high, low] = (LENGTH as u16 + body.len() as u16).to_be_bytes();
    let mut out = Datagram::from_slice(&[LENGTH, VERSION, service_high, service_low, high, low]);
    out.extend(body);
    out
}
