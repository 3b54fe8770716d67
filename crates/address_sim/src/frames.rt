//! Frames on the bus.

ghost use Rattle.std.specs.Prelude.{◌≡◌};
ghost use Rattle.address_world.specs.AddressWorld.{broadcast, response};
ghost use Rattle.address_sim.specs.Told.{is_broadcast};

use apdu_frames::{service_in, service_octets};
use knx_model::{Apdu, IndAddr, Ldata, LdataCode};

/// Low priority.
const PRIORITY: u8 = 3;

const HOP_COUNT: u8 = 6;

/// Whether a frame is to all units: to group address 0.
pub fn is_broadcast(frame: &Ldata) -> bool
    ensures { result ≡ is_broadcast frame.now }
{
    frame.group && frame.destination == 0
}

/// The service that a frame asks of all.
pub fn broadcast(frame: &Ldata) -> Option<Apdu>
    ensures { result ≡ broadcast frame.now }
{
    if is_broadcast(frame) {
        service_in(frame.tpdu.as_slice())
    } else {
        None
    }
}

/// The response of a unit with this address.
pub fn response(source: IndAddr) -> Ldata
    ensures { result ≡ response source }
{
    Ldata {
        code: LdataCode::Ind,
        error: false,
        group: true,
        priority: PRIORITY,
        hops: HOP_COUNT,
        source: source.raw,
        destination: 0,
        tpdu: service_octets(Apdu::AddressResponse),
    }
}
