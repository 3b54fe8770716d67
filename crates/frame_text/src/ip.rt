//! The line of a frame of KNXnet/IP (ISO 22510).

ghost use Rattle.std.specs.Prelude.{◌≡◌, ◌∷◌, [], ◌++◌, OnOk, codes};
ghost use Rattle.frame_text.specs.Spaced.{spaced};
ghost use Rattle.frame_text.specs.FrameText.{channel_words, number_words, status_words, tunnel_words, ip_name, ip_fields, ip_words, ip_line, ip_refusal_line};

use crate::pieces::{put_octet, put_refusal};
use knx_model::{
    IndAddr, IpFrame, IpRefused, NoMemory, Octets, put_device_word, put_number_word, put_word,
};
use std::alloc::Global;

fn put_channel(alloc: Global, out: &mut Octets, channel: u8) -> Result<(), NoMemory>
    ensures { OnOk result (out.new ≡ out.old ++ spaced (channel_words channel)) }
{
    put_word(out, b"channel")?;
    put_number_word(alloc, out, u64::from(channel))
}

fn put_sequence(alloc: Global, out: &mut Octets, number: u8) -> Result<(), NoMemory>
    ensures { OnOk result (out.new ≡ out.old ++ spaced (number_words number)) }
{
    put_word(out, b"number")?;
    put_number_word(alloc, out, u64::from(number))
}

fn put_status(out: &mut Octets, status: u8) -> Result<(), NoMemory>
    ensures { OnOk result (out.new ≡ out.old ++ spaced (status_words status)) }
{
    put_word(out, b"status")?;
    put_octet(out, status)
}

fn put_tunnel(alloc: Global, out: &mut Octets, tunnel: Option<IndAddr>) -> Result<(), NoMemory>
    ensures { OnOk result (out.new ≡ out.old ++ spaced (tunnel_words tunnel)) }
{
    match tunnel {
        None => Ok(()),
        Some(address) => {
            put_word(out, b"tunnel")?;
            put_device_word(alloc, out, address)
        }
    }
}

fn name_of(frame: &IpFrame) -> &'static str
    ensures { result.now ≡ ip_name frame.now }
{
    match frame {
        IpFrame::ConnectRequest => "connect-request",
        IpFrame::ConnectResponse { .. } => "connect-response",
        IpFrame::StateRequest { .. } => "connectionstate-request",
        IpFrame::StateResponse { .. } => "connectionstate-response",
        IpFrame::DisconnectRequest { .. } => "disconnect-request",
        IpFrame::DisconnectResponse { .. } => "disconnect-response",
        IpFrame::TunnellingRequest { .. } => "tunnelling-request",
        IpFrame::TunnellingAck { .. } => "tunnelling-ack",
    }
}

fn put_answer(alloc: Global, out: &mut Octets, channel: u8, status: u8) -> Result<(), NoMemory>
    ensures { OnOk result (out.new ≡ out.old ++ spaced (channel_words channel ++ status_words status)) }
{
    put_channel(alloc, out, channel)?;
    put_status(out, status)
}

fn put_counted(alloc: Global, out: &mut Octets, channel: u8, number: u8) -> Result<(), NoMemory>
    ensures { OnOk result (out.new ≡ out.old ++ spaced (channel_words channel ++ number_words number)) }
{
    put_channel(alloc, out, channel)?;
    put_sequence(alloc, out, number)
}

fn put_fields(alloc: Global, out: &mut Octets, frame: &IpFrame) -> Result<(), NoMemory>
    ensures { OnOk result (out.new ≡ out.old ++ spaced (ip_fields frame.now)) }
{
    match frame {
        IpFrame::ConnectRequest => Ok(()),
        IpFrame::ConnectResponse {
            channel,
            status,
            tunnel,
        } => {
            put_answer(alloc, out, *channel, *status)?;
            put_tunnel(alloc, out, *tunnel)
        }
        IpFrame::StateRequest { channel } => put_channel(alloc, out, *channel),
        IpFrame::StateResponse { channel, status } => put_answer(alloc, out, *channel, *status),
        IpFrame::DisconnectRequest { channel } => put_channel(alloc, out, *channel),
        IpFrame::DisconnectResponse { channel, status } => put_answer(
            alloc, out, *channel, *status,
        ),
        IpFrame::TunnellingRequest {
            channel,
            number,
            ..
        } => put_counted(alloc, out, *channel, *number),
        IpFrame::TunnellingAck {
            channel,
            number,
            status,
        } => {
            put_counted(alloc, out, *channel, *number)?;
            put_status(out, *status)
        }
    }
}

/// Appends the word of a service and its fields.
fn put_service(alloc: Global, out: &mut Octets, frame: &IpFrame) -> Result<(), NoMemory>
    ensures { OnOk result (out.new ≡ out.old ++ spaced (ip_words frame.now)) }
{
    put_word(out, name_of(frame).as_bytes())?;
    put_fields(alloc, out, frame)
}

/// Appends the line of a frame.
#[tactic(auto, using(crate::proofs::Lines::line_spaced))]
pub fn put_line(alloc: Global, out: &mut Octets, frame: &IpFrame) -> Result<(), NoMemory>
    ensures { OnOk result (out.new ≡ out.old ++ ip_line frame.now) }
{
    out.append(b"ip")?;
    put_service(alloc, out, frame)?;
    out.push(b'\n')
}

/// Appends the line of a refusal.
#[tactic(auto, using(crate::proofs::Lines::line_spaced))]
pub fn put_refusal_line(alloc: Global, out: &mut Octets, why: IpRefused) -> Result<(), NoMemory>
    ensures { OnOk result (out.new ≡ out.old ++ ip_refusal_line why) }
{
    out.append(b"ip")?;
    put_refusal(alloc, out, u64::from(why.number()), why.word())?;
    out.push(b'\n')
}
