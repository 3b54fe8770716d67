//! Frames as the transport layer sees them (ISO/IEC 14543-3-2, transport layer): the control frames, and numbered data
//! `01ssssaa` whatever its service.

ghost use Rattle.std.specs.Prelude.{◌≡◌, ◌≤◌, ◌<◌, length};
ghost use Rattle.knx_model.specs.declared.frames.tpdu.Tpdu.TheVariants as tpdu;
ghost use Rattle.knx_model.specs.Apdu.{Written};
ghost use Rattle.knx_model.specs.Connection.{frame_in, numbered_data, next_number, is_before, HasNumber, IsApdu};

use apdu_frames::{NUMBERED, decode, encode, is_numbered, sequence_number};
use knx_model::{ApduOctets, Tpdu, TransportFrame};

/// The frame that octets are. One of more than 64 octets is no frame of a device: it is `Other`.
#[tactic(auto, unfolding(knx_model::specs::Connection::frame_in))]
pub fn read(octets: &[u8]) -> TransportFrame
    ensures frame { result ≡ frame_in octets.now }
    ensures number { HasNumber result }
{
    match octets {
        [_] => control(octets),
        [first, rest @ ..]
            if is_numbered(*first) && octets.len() >= 2 && octets.len() <= ApduOctets::CAPACITY => {
            let first = *first;
            let mut apdu = ApduOctets::from_slice(&[first & 0x03]);
            apdu.extend(rest);
            TransportFrame::Numbered {
                number: sequence_number(first),
                apdu,
            }
        }
        _ => TransportFrame::Other,
    }
}

/// The frame that one octet is.
#[tactic(auto, unfolding(knx_model::specs::Connection::frame_in, knx_model::specs::ApduReading::tpdu_in))]
fn control(octet: &[u8]) -> TransportFrame
    requires { length octet.now ≡ 1 }
    ensures frame { result ≡ frame_in octet.now }
    ensures number { HasNumber result }
{
    match decode(octet) {
        Ok(Tpdu::Connect) => TransportFrame::Connect,
        Ok(Tpdu::Disconnect) => TransportFrame::Disconnect,
        Ok(Tpdu::Ack(number)) => TransportFrame::Ack(number),
        Ok(Tpdu::Nak(number)) => TransportFrame::Nak(number),
        _ => TransportFrame::Other,
    }
}

/// An APDU with transport bits 0 as numbered data.
pub fn numbered(number: u8, apdu: &[u8]) -> ApduOctets
    requires number { number < 16 }
    requires apdu { IsApdu apdu.now }
    ensures { result ≡ numbered_data number apdu.now }
{
    match apdu {
        [] => ApduOctets::new(),
        [first, rest @ ..] => {
            let mut frame = ApduOctets::from_slice(&[NUMBERED + 4 * number + *first]);
            frame.extend(rest);
            frame
        }
    }
}

/// The T_ACK of a number.
pub fn ack(number: u8) -> ApduOctets
    requires { number < 16 }
    ensures { result ≡ Written (tpdu.Ack number) }
{
    encode(&Tpdu::Ack(number))
}

/// The T_NAK of a number.
pub fn nak(number: u8) -> ApduOctets
    requires { number < 16 }
    ensures { result ≡ Written (tpdu.Nak number) }
{
    encode(&Tpdu::Nak(number))
}

/// T_Connect.
pub fn connect() -> ApduOctets
    ensures { result ≡ Written tpdu.Connect }
{
    encode(&Tpdu::Connect)
}

/// T_Disconnect.
pub fn disconnect() -> ApduOctets
    ensures { result ≡ Written tpdu.Disconnect }
{
    encode(&Tpdu::Disconnect)
}

/// The number that follows.
pub fn next_number(number: u8) -> u8
    requires { number < 16 }
    ensures value { result ≡ next_number number }
    ensures fits { result < 16 }
{
    (number + 1) % 16
}

/// Whether a number is the one before another.
pub fn is_before(one: u8, other: u8) -> bool
    requires { one < 16 }
    ensures { result ≡ is_before one other }
{
    next_number(one) == other
}
