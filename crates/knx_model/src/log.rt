//! A word of the log.

/// Why an attempt ended before its plan's end.
#[derive(Clone, Copy, Drop)]
pub enum Sign {
    /// The device kept silent for so many milliseconds: 3,000 without a T_ACK after each of four sendings, or 6,000 without an answer.
    Silent { ms: u32 },
    /// The device closed the connection, or sent a T_ACK with a number at which the client closes.
    Closed,
    /// The device didn't take the connect.
    NoCon,
    /// The tunnel's channel was lost.
    TunnelLost,
}
