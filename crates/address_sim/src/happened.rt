//! What happened, for proofs.

use address_world::UnitLoss;
use tunnel_sim::AtGateway;

/// An event, as it is told to the events of a run. What has a length is borrowed from where it is.
#[derive(Clone, Copy, Drop)]
pub enum Happened<'a> {
    /// The client sent a datagram.
    Send(&'a [u8]),
    /// It took the next endpoint.
    Renew,
    /// The gateway took the client's datagram of this age: how many younger ones there were.
    Up(u64),
    /// The client got the gateway's datagram of this age.
    Down(u64),
    /// The client's broadcast of this number went over the bus, lost where these say so.
    Broadcast(&'a [UnitLoss], u64),
    /// Another frame of the client did.
    Single,
    /// The unit at this place, from 0, responded.
    Respond(u64, AtGateway),
    /// The gateway sent its outstanding request again.
    GwRepeat,
    /// It closed its channel.
    GwClose,
    /// So many milliseconds passed.
    Pass(u32),
}
