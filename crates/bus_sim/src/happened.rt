//! What happened on the line, for proofs.

use line_sim::AtGateway;

/// An event of the line, as it is told to the events of a run. Octets are borrowed from where they are.
#[derive(Clone, Copy, Drop)]
pub enum Happened<'a> {
    /// The client sent a datagram.
    Send(&'a [u8]),
    /// The client at this endpoint sent a datagram.
    From(u32, &'a [u8]),
    /// The client took the next endpoint.
    Renew,
    /// The gateway took the client's datagram of this age: how many younger ones there were.
    Up(u64),
    /// It answered the connect request of this age with a status.
    UpRefused(u64, u8),
    /// The client got the gateway's datagram of this age.
    Down(u64),
    /// The client's datagram of this age was lost.
    LoseUp(u64),
    /// The gateway's datagram of this age was lost.
    LoseDown(u64),
    /// The client's frame went over the bus, lost for one device or for none.
    Bus(Option<u16>),
    /// The device that it is for took it torn: with the new load state and length or not, and these new octets.
    BusTorn(bool, &'a [u8]),
    /// It took it over worn memory, which kept these octets.
    BusWorn(&'a [u8]),
    /// A device took again the frame that it got last.
    BusAgain(u16),
    /// A device's oldest unsent frame went over the bus.
    DevSend(u16, AtGateway),
    /// Its outstanding answer went over the bus once more.
    DevRepeat(u16, AtGateway),
    /// It closed its connection.
    DevClose(u16),
    /// The gateway sent its outstanding request again.
    GwRepeat,
    /// It closed its channel.
    GwClose,
    /// A device had power again.
    On(u16),
    /// So many milliseconds passed.
    Pass(u32),
}
