//! What the gateway's end of a tunnel answers (ISO 22510, Core and Tunnelling).

use knx_model::Datagram;

/// What the gateway's end makes of a datagram.
#[derive(Debug, Drop, PartialEq, Eq)]
pub struct GatewayTook {
    /// The datagram that goes back to the endpoint.
    pub send: Option<Datagram>,
    /// The cEMI frame that is acted on.
    pub acted: Option<Datagram>,
}

/// What has become due at the gateway's end.
#[derive(Debug, Drop, PartialEq, Eq)]
pub enum GatewayExpired {
    Nothing,
    /// The outstanding request, to be sent again.
    Repeat(Datagram),
    /// The channel is closed; the disconnect request that tells its client.
    Closed(Datagram),
}
