//! The requests that are put (KNX standard 3/6/3, common EMI).

ghost use Rattle.std.specs.Prelude.{◌≡◌, Some};
ghost use Rattle.line_model.specs.ClientEnd.{IsCemi};
ghost use Rattle.line_model.specs.Reading.{ldata_in};
ghost use Rattle.address_world.specs.Keeps.{frame_of};

use address_world::Asked;
use apdu_frames::{encode as tpdu_octets, service_octets};
use knx_model::{Apdu, Datagram, IndAddr, Tpdu};
use line_frames::request;

/// The cEMI octets that ask for this.
pub fn request_of(wanted: IndAddr, asked: Asked) -> Datagram
    ensures cemi { IsCemi result }
    ensures reads { ldata_in result ≡ Some (frame_of wanted asked) }
{
    match asked {
        Asked::Read => request(true, 0, service_octets(Apdu::AddressRead)),
        Asked::Connect => request(false, wanted.raw, tpdu_octets(&Tpdu::Connect)),
        Asked::Disconnect => request(false, wanted.raw, tpdu_octets(&Tpdu::Disconnect)),
        Asked::Write => request(true, 0, service_octets(Apdu::AddressWrite(wanted))),
    }
}
