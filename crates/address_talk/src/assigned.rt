//! What came of giving an address.

use knx_model::{IndAddr, NoMemory};
use line_model::Try;

/// What came of it.
#[derive(Clone, Copy, Debug, Drop, PartialEq, Eq)]
pub enum Assigned {
    /// The one unit that answers has the address.
    Done,
    /// Nobody answered three times.
    NoUnit,
    /// Two or more answered: the first two.
    Several { first: IndAddr, second: IndAddr },
    /// Another unit has the address.
    Taken,
    /// After the write not just one unit answered, from that address.
    Unconfirmed,
}

/// Why it wasn't known.
#[derive(Clone, Copy, Drop)]
pub enum AssignFault {
    /// The channel was lost.
    TunnelLost,
    /// The link's count of failed calls rose.
    LinkFailed,
    /// Three tries in turn to get a channel failed.
    GatewayRefused([Try; 3]),
    /// 16,777,216 datagrams were taken.
    Flooded,
    /// There was no memory; the link's count of such answers rose.
    NoMemory(NoMemory),
}
