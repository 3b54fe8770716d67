//! Frames of KNXnet/IP (ISO 22510): the services of Core and Tunnelling.

ghost use Rattle.std.specs.Prelude.{◌≡◌};
ghost use Rattle.knx_model.specs.KnxNetIp.{refusal_number, refusal_word};

use crate::address::IndAddr;
use crate::frames::Datagram;

/// A frame of a client or of a gateway. A status is one of Core's codes, 00 for no error (hexadecimal); sequence counters go from 0 to 255.
#[derive(Debug, Drop, PartialEq, Eq)]
pub enum IpFrame {
    /// Asks for a tunnel on the link layer.
    ConnectRequest,
    /// With the individual address of the tunnel where the status is 0.
    ConnectResponse {
        channel: u8,
        status: u8,
        tunnel: Option<IndAddr>,
    },
    /// The heartbeat of a channel (CONNECTIONSTATE_REQUEST).
    StateRequest {
        channel: u8,
    },
    /// Whether the channel is open: status 00, or 21, 26 or 27 where it isn't or doesn't reach the line.
    StateResponse {
        channel: u8,
        status: u8,
    },
    /// Either end ends the channel.
    DisconnectRequest {
        channel: u8,
    },
    /// It has ended: status 00, or 21 where it wasn't open.
    DisconnectResponse {
        channel: u8,
        status: u8,
    },
    /// A cEMI frame of 1 to 290 octets, with the sequence counter of its direction.
    TunnellingRequest {
        channel: u8,
        number: u8,
        cemi: Datagram,
    },
    /// The tunnelling request with this number came, now or before; with another status than 00 it counts as none.
    TunnellingAck {
        channel: u8,
        number: u8,
        status: u8,
    },
}

/// Why octets are no frame of KNXnet/IP.
#[derive(Clone, Copy, Debug, PartialEq, Eq)]
pub enum IpRefused {
    /// 1: fewer than 6 octets, or another beginning.
    Header,
    /// 2: none of the services.
    Service,
    /// 3: the total length isn't the number of octets.
    Length,
    /// 4: not the body of its service.
    Body,
}

impl IpRefused {
    /// Its number, from 1.
    pub fn number(self) -> u8
        ensures { result ≡ refusal_number self }
    {
        match self {
            IpRefused::Header => 1,
            IpRefused::Service => 2,
            IpRefused::Length => 3,
            IpRefused::Body => 4,
        }
    }

    /// Its word, as it is printed.
    pub fn word(self) -> &'static str
        ensures { result.now ≡ refusal_word self }
    {
        match self {
            IpRefused::Header => "Header",
            IpRefused::Service => "Service",
            IpRefused::Length => "Length",
            IpRefused::Body => "Body",
        }
    }
}
