//! Numbered connections (ISO/IEC 14543-3-2, transport layer): the frames as this layer sees them, and what the two ends answer.

use crate::frames::ApduOctets;

/// A frame as the transport layer sees it. Sequence numbers are 0 to 15.
#[derive(Drop)]
pub enum TransportFrame {
    Connect,
    Disconnect,
    Ack(u8),
    Nak(u8),
    /// Numbered data: its sequence number, and its APDU with transport bits 0.
    Numbered { number: u8, apdu: ApduOctets },
    /// Unnumbered data, or octets that are no frame.
    Other,
}

/// A number is outstanding, or there is no connection to send it on.
#[derive(Clone, Copy, Debug, PartialEq, Eq)]
pub struct Busy;

/// What the device's end makes of a frame. The octets that an answer holds are to be sent to the frame's sender.
#[derive(Debug, Drop, PartialEq, Eq)]
pub enum DeviceTook {
    /// The frame acts on nothing.
    Dropped,
    /// T_Connect: the connection with the sender is new, both its numbers are 0, and what the device hasn't sent is dropped.
    Connected,
    /// The next service of the partner, and its T_ACK.
    Apdu { apdu: ApduOctets, ack: ApduOctets },
    /// The service before once more, and its T_ACK.
    Again { ack: ApduOctets },
    /// The T_NAK of another number.
    Nak(ApduOctets),
    /// The T_ACK of the outstanding answer.
    Acked,
    /// There is no connection with the sender, or no longer; the answer is the T_Disconnect that tells it, None where the sender sent one.
    Closed { answer: Option<ApduOctets> },
}

/// What has become due at the device's end.
#[derive(Debug, Drop, PartialEq, Eq)]
pub enum DeviceExpired {
    Nothing,
    /// The outstanding answer, to be sent again.
    Repeat(ApduOctets),
    /// The connection is closed; the T_Disconnect that tells the partner.
    Closed(ApduOctets),
}

/// What the client's end makes of a confirmation.
#[derive(Clone, Copy, Debug, Drop, PartialEq, Eq)]
pub enum ClientConfirmed {
    /// The T_Connect was taken: the connection is up.
    Up,
    /// The T_Connect was confirmed with error: the attempt has ended.
    NoCon,
    /// That of a later frame; the wait for a T_ACK begins at the first one after its service was sent.
    Timed,
}

/// What the client's end makes of a frame. The octets that an answer holds are to be sent to the device.
#[derive(Debug, Drop, PartialEq, Eq)]
pub enum ClientTook {
    /// The frame acts on nothing.
    Dropped,
    /// The T_ACK of the outstanding service.
    Acked,
    /// The device's next service, and its T_ACK.
    Answer { apdu: ApduOctets, ack: ApduOctets },
    /// The service before once more, and its T_ACK.
    Again { ack: ApduOctets },
    /// The T_NAK of another number.
    Nak(ApduOctets),
    /// The connection is closed; the answer is the T_Disconnect that tells it, None where the device sent one.
    Closed { answer: Option<ApduOctets> },
}

/// What has become due at the client's end.
#[derive(Debug, Drop, PartialEq, Eq)]
pub enum ClientExpired {
    Nothing,
    /// The outstanding service, to be sent again.
    Repeat(ApduOctets),
    /// The connection has ended after a wait of so many milliseconds.
    Silent { ms: u32 },
}
