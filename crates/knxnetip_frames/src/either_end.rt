//! Frames that either end of a channel sends (ISO 22510, Core and Tunnelling).

ghost use Rattle.std.specs.Prelude.{◌≡◌};
ghost use Rattle.knx_model.specs.KnxNetIp.{Written};

use crate::encode;
use knx_model::{Datagram, IpFrame};

/// The status of what went well, E_NO_ERROR.
pub const NO_ERROR: u8 = 0x00;

/// TUNNELLING_ACK of a request that is taken.
pub fn acknowledgement(channel: u8, number: u8) -> Datagram
    ensures { result ≡ Written (IpFrame.TunnellingAck channel number 0) }
{
    encode(&IpFrame::TunnellingAck {
        channel,
        number,
        status: NO_ERROR,
    })
}

/// DISCONNECT_REQUEST.
pub fn disconnect_request(channel: u8) -> Datagram
    ensures { result ≡ Written (IpFrame.DisconnectRequest channel) }
{
    encode(&IpFrame::DisconnectRequest { channel })
}

/// DISCONNECT_RESPONSE.
pub fn disconnect_response(channel: u8, status: u8) -> Datagram
    ensures { result ≡ Written (IpFrame.DisconnectResponse channel status) }
{
    encode(&IpFrame::DisconnectResponse { channel, status })
}
