//! The frames in datagrams. `frames_are_read` does nothing: it says of the definitions what the proofs of both functions need.

ghost use Rattle.std.specs.Prelude.{◌≡◌, IfSome};
ghost use Rattle.line_model.specs.ClientFrames.{HasTunnelIfUp};
ghost use Rattle.line_model.specs.Reading.{datagram_in, ldata_in};

use knx_model::{IpFrame, Ldata};
use line_model::frames_are_read;

/// The frame that a datagram is; None where it is none.
pub fn datagram_in(octets: &[u8]) -> Option<IpFrame>
    ensures value { result ≡ datagram_in octets.now }
    ensures tunnel { IfSome result HasTunnelIfUp }
{
    frames_are_read();
    match knxnetip_frames::decode(octets) {
        Ok(frame) => Some(frame),
        Err(_) => None,
    }
}

/// The frame of the link layer that a request's octets are; None where they are none.
pub fn ldata_in(octets: &[u8]) -> Option<Ldata>
    ensures { result ≡ ldata_in octets.now }
{
    frames_are_read();
    match cemi_frames::decode(octets) {
        Ok(frame) => Some(frame),
        Err(_) => None,
    }
}
