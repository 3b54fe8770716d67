//! The service type identifiers (ISO 22510, Core and Tunnelling).

ghost use Rattle.std.specs.Prelude.{◌≡◌, IfSome, IfNone};
ghost use Rattle.knx_model.specs.KnxNetIp.{IsService};
ghost use Rattle.knxnetip_frames.specs.Services.{identifier_of};

/// CONNECT_REQUEST asks for a channel.
pub const CONNECT_REQUEST: u16 = 0x0205;
/// CONNECT_RESPONSE gives a channel, or tells why not.
pub const CONNECT_RESPONSE: u16 = 0x0206;
/// CONNECTIONSTATE_REQUEST is the heartbeat of a channel.
pub const CONNECTIONSTATE_REQUEST: u16 = 0x0207;
/// CONNECTIONSTATE_RESPONSE answers the heartbeat.
pub const CONNECTIONSTATE_RESPONSE: u16 = 0x0208;
/// DISCONNECT_REQUEST ends a channel.
pub const DISCONNECT_REQUEST: u16 = 0x0209;
/// DISCONNECT_RESPONSE confirms that end.
pub const DISCONNECT_RESPONSE: u16 = 0x020A;
/// TUNNELLING_REQUEST carries a cEMI frame.
pub const TUNNELLING_REQUEST: u16 = 0x0420;
/// TUNNELLING_ACK acknowledges that frame.
pub const TUNNELLING_ACK: u16 = 0x0421;

/// A service that is read here.
#[derive(Clone, Copy)]
pub enum Service {
    ConnectRequest,
    ConnectResponse,
    StateRequest,
    StateResponse,
    DisconnectRequest,
    DisconnectResponse,
    TunnellingRequest,
    TunnellingAck,
}

impl Service {
    /// The service of an identifier; None exactly where it is none of these.
    pub fn of(identifier: u16) -> Option<Service>
        ensures some { IfSome result (λ service. identifier_of service ≡ identifier) }
        ensures none { IfNone result (¬ IsService identifier) }
    {
        match identifier {
            CONNECT_REQUEST => Some(Service::ConnectRequest),
            CONNECT_RESPONSE => Some(Service::ConnectResponse),
            CONNECTIONSTATE_REQUEST => Some(Service::StateRequest),
            CONNECTIONSTATE_RESPONSE => Some(Service::StateResponse),
            DISCONNECT_REQUEST => Some(Service::DisconnectRequest),
            DISCONNECT_RESPONSE => Some(Service::DisconnectResponse),
            TUNNELLING_REQUEST => Some(Service::TunnellingRequest),
            TUNNELLING_ACK => Some(Service::TunnellingAck),
            _ => None,
        }
    }
}
