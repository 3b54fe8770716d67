//! What the client's end of a tunnel answers (ISO 22510, Core and Tunnelling).

use knx_model::{Datagram, IndAddr};

/// What the client's end makes of a frame. The datagrams that an answer holds are to be sent to the gateway.
#[derive(Debug, Drop, PartialEq, Eq)]
pub enum ChannelTook {
    /// The frame acts on nothing.
    Dropped,
    /// The channel is open, with the individual address of the tunnel.
    Up { tunnel: IndAddr },
    /// The gateway gave no channel; its status isn't 0.
    RefusedBy { status: u8 },
    /// The acknowledgement of the outstanding request.
    Acked,
    /// The gateway's next request: its cEMI octets, and its acknowledgement.
    Cemi { octets: Datagram, ack: Datagram },
    /// The request before once more, and its acknowledgement.
    Again { ack: Datagram },
    /// There is no channel any longer. The answer is the disconnect response that the gateway awaits where it asked to end the channel;
    /// None where it answered that the channel isn't open, or the client's own request to end it.
    Gone { answer: Option<Datagram> },
    /// The answer to a heartbeat.
    Alive,
}

/// What has become due at the client's end.
#[derive(Debug, Drop, PartialEq, Eq)]
pub enum ChannelExpired {
    Nothing,
    /// The outstanding request, to be sent once more.
    Repeat(Datagram),
    /// The channel is lost: its request was sent twice and not acknowledged.
    Lost,
    /// The connect request had no response.
    NoAnswer,
    /// A heartbeat, to be sent.
    Beat(Datagram),
    /// The channel is lost: three heartbeats in turn had no answer.
    Dead,
}
