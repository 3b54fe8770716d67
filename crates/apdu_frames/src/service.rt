//! A service without a number, as the octets with transport bits 0 that carry it (ISO/IEC 14543-3-2 and 3-1, transport and
//! application layer).

ghost use Rattle.std.specs.Prelude.{◌≡◌, IfSome};
ghost use Rattle.knx_model.specs.Apdu.{IsApduInRange};
ghost use Rattle.knx_model.specs.ApduReading.{service_in, apdu_octets};
ghost use Rattle.knx_model.specs.Connection.{IsApdu};
ghost use Rattle.knx_model.specs.DeviceFrames.{IsServiceInRange, group_service};

use crate::tpdu::{decode, encode};
use knx_model::{Apdu, ApduOctets, GroupService, Tpdu};

/// The service that the octets ask for; None where they are no service, or one with a number.
#[tactic(auto, unfolding(knx_model::specs::ApduReading::service_in))]
pub fn service_in(octets: &[u8]) -> Option<Apdu>
    ensures value { result ≡ service_in octets.now }
    ensures range { IfSome result (λ apdu. IsApduInRange apdu) }
{
    match decode(octets) {
        Ok(Tpdu::Unnumbered(apdu)) => Some(apdu),
        _ => None,
    }
}

/// The group service that the octets are; None where they are another service or none.
pub fn group_service_in(octets: &[u8]) -> Option<GroupService>
    ensures value { result ≡ group_service (service_in octets.now) }
    ensures range { IfSome result IsServiceInRange }
{
    match service_in(octets)? {
        Apdu::GroupRead => Some(GroupService::Read),
        Apdu::GroupWrite(value) => Some(GroupService::Write(value)),
        Apdu::GroupResponse(value) => Some(GroupService::Response(value)),
        _ => None,
    }
}

/// A service as octets, at most 64.
#[tactic(auto, using(crate::proofs::Apdus::written_apdu))]
pub fn service_octets(apdu: Apdu) -> ApduOctets
    requires { IsApduInRange apdu }
    ensures value { result ≡ apdu_octets apdu }
    ensures apdu { IsApdu result }
{
    encode(&Tpdu::Unnumbered(apdu))
}
