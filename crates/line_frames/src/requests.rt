//! The requests that a client puts (KNX standard 3/6/3, common EMI).

ghost use Rattle.std.specs.Prelude.{◌≡◌, ◌≤◌, length, Some};
ghost use Rattle.line_model.specs.ClientEnd.{IsCemi};
ghost use Rattle.line_model.specs.Reading.{ldata_in};
ghost use Rattle.line_frames.specs.Requests.{request_with};

use cemi_frames::encode;
use knx_model::{ApduOctets, Datagram, Ldata, LdataCode};
use line_model::frames_are_read;

/// Low priority.
const PRIORITY: u8 = 3;

const HOP_COUNT: u8 = 6;

/// The cEMI octets that ask for a frame of low priority with this TPDU, to a group or to a device.
pub fn request(group: bool, destination: u16, tpdu: ApduOctets) -> Datagram
    requires { 1 ≤ length tpdu }
    ensures cemi { IsCemi result }
    ensures reads { ldata_in result ≡ Some (request_with group destination tpdu) }
{
    frames_are_read();
    let _len = tpdu.len();
    encode(&Ldata {
        code: LdataCode::Req,
        error: false,
        group,
        priority: PRIORITY,
        hops: HOP_COUNT,
        source: 0,
        destination,
        tpdu,
    })
}
