//! Frames of the link layer that a hub asks for, and the group telegrams in those that it hears (KNX standard 3/6/3, common EMI).

ghost use Rattle.std.specs.Prelude.{◌≡◌, ◌≤◌, false, true, length, Some};
ghost use Rattle.knx_model.specs.DeviceFrames.{IsServiceInRange};
ghost use Rattle.line_model.specs.ClientEnd.{IsCemi};
ghost use Rattle.line_model.specs.ClientView.{indication_of};
ghost use Rattle.line_model.specs.Told.{service_of};
ghost use Rattle.line_model.specs.Reading.{ldata_in};
ghost use Rattle.knx_model.specs.ApduReading.{apdu_octets};
ghost use Rattle.line_frames.specs.Requests.{request_with};

use apdu_frames::{group_service_in, service_octets};
use knx_model::{Apdu, ApduOctets, Datagram, GroupAddr, GroupService, IndAddr, Ldata, LdataCode};
use line_frames::request;
use line_model::{GroupTurn, Indication};

/// The cEMI octets that ask for a frame with this TPDU to one device.
pub fn to_device(device: IndAddr, tpdu: ApduOctets) -> Datagram
    requires { 1 ≤ length tpdu }
    ensures cemi { IsCemi result }
    ensures reads { ldata_in result ≡ Some (request_with false device.raw tpdu) }
{
    request(false, device.raw, tpdu)
}

/// The cEMI octets that ask for a group telegram.
pub fn to_group(turn: &GroupTurn) -> Datagram
    requires { IsServiceInRange turn.now.service }
    ensures cemi { IsCemi result }
    ensures reads { ldata_in result ≡ Some (request_with true turn.now.group.raw (apdu_octets (service_of turn.now.service))) }
{
    request(
        true,
        turn.group.raw,
        service_octets(service_of(&turn.service)),
    )
}

/// The service of a group telegram.
fn service_of(service: &GroupService) -> Apdu
    ensures { result ≡ service_of service.now }
{
    match service {
        GroupService::Read => Apdu::GroupRead,
        GroupService::Write(value) => Apdu::GroupWrite(value.copied()),
        GroupService::Response(value) => Apdu::GroupResponse(value.copied()),
    }
}

/// The group telegram that an indication tells of; None where it tells of none.
pub fn indication_of(frame: &Ldata) -> Option<Indication>
    ensures { result ≡ indication_of (Some frame.now) }
{
    if frame.code != LdataCode::Ind || !frame.group {
        return None;
    }
    match group_service_in(frame.tpdu.as_slice()) {
        Some(service) => Some(Indication {
            from: IndAddr { raw: frame.source },
            group: GroupAddr {
                raw: frame.destination,
            },
            service,
        }),
        None => None,
    }
}
