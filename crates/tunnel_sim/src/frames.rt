//! The frame that a request brings, and the frame that the bus carries for it (KNX standard 3/6/3, common EMI).

ghost use Rattle.std.specs.Prelude.{◌≡◌, option_to_list};
ghost use Rattle.line_model.specs.Gateway.{to_bus};
ghost use Rattle.line_model.specs.Reading.{ldata_in};
ghost use Rattle.line_model.specs.World.{on_bus};
ghost use Rattle.tunnel_sim.specs.Gateways.{confirmed};

use knx_model::{IndAddr, Ldata, LdataCode};
use line_frames::ldata_in;

/// The priority of a frame on the bus: low.
const PRIORITY: u8 = 3;

/// The hop count of a frame on the bus.
const HOP_COUNT: u8 = 6;

/// The frame that a request asks the gateway to send on the bus; None where its octets are no L_Data.req.
pub fn asked_for(cemi: &[u8]) -> Option<Ldata>
    ensures { option_to_list result ≡ to_bus (ldata_in cemi.now) }
{
    let frame = ldata_in(cemi)?;
    match frame.code {
        LdataCode::Req => Some(frame),
        LdataCode::Con | LdataCode::Ind => None,
    }
}

/// A frame of the client as the bus carries it: with the tunnel's address as its source.
pub fn on_bus(address: IndAddr, frame: &Ldata) -> Ldata
    ensures { result ≡ on_bus address frame.now }
{
    Ldata {
        code: LdataCode::Ind,
        error: false,
        group: frame.group,
        priority: PRIORITY,
        hops: HOP_COUNT,
        source: address.raw,
        destination: frame.destination,
        tpdu: frame.tpdu.copied(),
    }
}

/// The confirmation of a frame: with error where it isn't confirmed.
pub fn confirmation(frame: Ldata, is_confirmed: bool) -> Ldata
    ensures { result ≡ confirmed frame is_confirmed }
{
    Ldata {
        code: LdataCode::Con,
        error: !is_confirmed,
        ..frame
    }
}
