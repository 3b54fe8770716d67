//! What the client answers to a frame of the gateway.

ghost use Rattle.std.specs.Prelude.{◌≡◌};
ghost use Rattle.line_model.specs.ClientFrames.{seeking_took, open_took, leaving_took, state_took, request_took};

use crate::ends::Ends;
use knx_model::{Datagram, IpFrame};
use knxnetip_frames::{NO_ERROR, acknowledgement, disconnect_response};
use line_model::ChannelTook;

/// The answer while a channel is sought.
pub fn seeking_took(frame: &IpFrame) -> ChannelTook
    ensures { result ≡ seeking_took frame.now }
{
    match frame {
        IpFrame::ConnectResponse {
            tunnel: Some(tunnel),
            ..
        } => ChannelTook::Up { tunnel: *tunnel },
        IpFrame::ConnectResponse {
            status,
            tunnel: None,
            ..
        } => ChannelTook::RefusedBy { status: *status },
        _ => ChannelTook::Dropped,
    }
}

/// The answer in an open channel.
pub fn open_took(ends: &Ends, frame: &IpFrame, now: u64) -> ChannelTook
    ensures { result ≡ open_took ends.now now frame.now }
{
    match frame {
        IpFrame::StateResponse { channel, status } => state_took(ends, *channel, *status, now),
        IpFrame::DisconnectRequest { channel } if *channel == ends.channel => ChannelTook::Gone {
            answer: Some(disconnect_response(*channel, NO_ERROR)),
        },
        IpFrame::TunnellingRequest {
            channel,
            number,
            cemi,
        } if *channel == ends.channel => request_took(ends, *number, cemi),
        IpFrame::TunnellingAck {
            channel,
            number,
            status,
        } if ends.is_acknowledged(*channel, *number, *status) => ChannelTook::Acked,
        _ => ChannelTook::Dropped,
    }
}

/// The answer in an open channel whose end was asked for.
pub fn leaving_took(ends: &Ends, frame: &IpFrame, now: u64) -> ChannelTook
    ensures { result ≡ leaving_took ends.now now frame.now }
{
    match frame {
        IpFrame::DisconnectResponse { channel, .. } if *channel == ends.channel => {
            ChannelTook::Gone { answer: None }
        }
        frame => open_took(ends, frame, now),
    }
}

fn state_took(ends: &Ends, channel: u8, status: u8, now: u64) -> ChannelTook
    ensures { result ≡ state_took ends.now channel status now }
{
    if channel != ends.channel || !ends.is_awaited(now) {
        ChannelTook::Dropped
    } else if status == NO_ERROR {
        ChannelTook::Alive
    } else {
        ChannelTook::Gone { answer: None }
    }
}

/// The answer to a request in the channel: the expected number is given and acknowledged, the number before is acknowledged, another is
/// dropped.
fn request_took(ends: &Ends, number: u8, cemi: &Datagram) -> ChannelTook
    ensures { result ≡ request_took ends.now ends.now.channel number cemi.now }
{
    if number == ends.expected {
        ChannelTook::Cemi {
            octets: cemi.copied(),
            ack: acknowledgement(ends.channel, number),
        }
    } else if number.wrapping_add(1) == ends.expected {
        ChannelTook::Again {
            ack: acknowledgement(ends.channel, number),
        }
    } else {
        ChannelTook::Dropped
    }
}
