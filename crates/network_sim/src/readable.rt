//! What is kept of a datagram's octets.

ghost use Rattle.std.specs.Prelude.{◌≡◌, None};
ghost use Rattle.knx_model.specs.declared.frames.ip.IpFrame.{IpFrame as Frame};
ghost use Rattle.knx_model.specs.KnxNetIp.{Written};
ghost use Rattle.network_sim.specs.Readable.{readable, shortened};

use knx_model::{Datagram, IpFrame};
use line_frames::datagram_in;

/// Octets that read as a datagram does: up to 300 all of them.
pub fn readable(octets: &[u8]) -> Datagram
    ensures { result ≡ readable octets.now }
{
    if octets.len() <= Datagram::CAPACITY {
        Datagram::from_slice(octets)
    } else {
        shortened(datagram_in(octets))
    }
}

/// The frame of a datagram with more octets: only a connect response with an error may have so many.
fn shortened(frame: Option<IpFrame>) -> Datagram
    ensures { result ≡ shortened frame }
{
    match frame {
        Some(
            IpFrame::ConnectResponse {
                channel,
                status,
                tunnel: None,
            },
        ) => refusal(channel, status),
        _ => Datagram::new(),
    }
}

/// CONNECT_RESPONSE with an error.
fn refusal(channel: u8, status: u8) -> Datagram
    ensures { result ≡ Written (Frame.ConnectResponse channel status None) }
{
    Datagram::from_slice(&[0x06, 0x10, 0x02, 0x06, 0x00, 0x08, channel, status])
}
