//! The first octet of a frame (ISO/IEC 14543-3-2, transport layer), and the frames of this one octet: T_Connect, T_Disconnect,
//! T_ACK and T_NAK.

ghost use Rattle.std.specs.Prelude.{◌≡◌, ◌+◌, ◌*◌, ◌/◌, ◌%◌, ◌<◌, ◌≤◌, [], ◌∷◌, IfSome, IfNone, IsTrue, ◌↔◌};
ghost use Rattle.knx_model.specs.Apdu.{ReadsControl, IsControlForm};

use knx_model::{ApduOctets, Tpdu};

/// Numbered data of sequence number 0, with the upper two bits of the service's code 0.
pub const NUMBERED: u8 = 0x40;
/// T_Connect.
pub const CONNECT: u8 = 0x80;
/// T_Disconnect.
pub const DISCONNECT: u8 = 0x81;
/// T_ACK of sequence number 0.
const ACK: u8 = 0xC2;
/// T_NAK of sequence number 0.
const NAK: u8 = 0xC3;

/// Whether this is the first octet of numbered data, `01ssssaa` (ISO/IEC 14543-3-2, transport layer).
pub fn is_numbered(first: u8) -> bool
    ensures { IsTrue result ↔ ((0x40 ≤ first) × (first < 0x80)) }
{
    first >= NUMBERED && first < CONNECT
}

/// The sequence number in a first octet, its bits 5 to 2 (ISO/IEC 14543-3-2, transport layer).
pub fn sequence_number(first: u8) -> u8
    ensures value { result ≡ first / 4 % 16 }
    ensures fits { result < 16 }
{
    first >> 2 & 0x0F
}

/// The frame that one octet is, if its form is one of the four.
pub fn read(first: u8) -> Option<Tpdu>
    ensures found { IfSome result (λ frame. ReadsControl first frame) }
    ensures form { IfSome result (λ frame. IsControlForm first) }
    ensures none { IfNone result (¬ IsControlForm first) }
{
    match first {
        CONNECT => Some(Tpdu::Connect),
        DISCONNECT => Some(Tpdu::Disconnect),
        _ => {
            let number = sequence_number(first);
            if first == ACK + 4 * number {
                Some(Tpdu::Ack(number))
            } else if first == NAK + 4 * number {
                Some(Tpdu::Nak(number))
            } else {
                None
            }
        }
    }
}

/// Whether the form of a first octet is one of the four.
pub fn is_form(first: u8) -> bool
    ensures { IsTrue result ↔ IsControlForm first }
{
    read(first).is_some()
}

/// T_ACK of a sequence number.
pub fn ack(number: u8) -> ApduOctets
    requires { number < 16 }
    ensures { result ≡ (0xC2 + 4 * number) ∷ [] }
{
    ApduOctets::from_slice(&[ACK + 4 * number])
}

/// T_NAK of a sequence number.
pub fn nak(number: u8) -> ApduOctets
    requires { number < 16 }
    ensures { result ≡ (0xC3 + 4 * number) ∷ [] }
{
    ApduOctets::from_slice(&[NAK + 4 * number])
}
