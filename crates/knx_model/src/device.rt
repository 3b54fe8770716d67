//! What a device on the bus says of a frame, and what it sends.

/// Which frames a device takes.
#[derive(Clone, Copy, Debug, Drop, PartialEq, Eq)]
pub enum FrameSupport {
    /// Standard frames alone, with a TPDU of at most 16 octets.
    Standard,
    /// Extended frames too.
    Extended,
}

/// Whether a device took a frame.
#[derive(Clone, Copy, Debug, Drop, PartialEq, Eq)]
pub enum Took {
    /// The frame is for another device alone.
    NotMine,
    /// The frame is an extended one, and this device takes standard frames alone.
    TooLong,
    /// The frame is for this device, or for a group.
    Taken,
    /// The device has no power.
    Off,
}

/// A write of a device, at which a cut of the power may fall.
#[derive(Clone, Copy, Drop, PartialEq, Eq)]
pub enum WriteKind {
    /// A memory write that is taken.
    Memory,
    /// A load event other than 0.
    Load,
}

/// What a device sends next.
#[derive(Clone, Copy, Debug, Drop, PartialEq, Eq)]
pub enum Sending {
    /// The frame that waits longest.
    Waiting,
    /// Its answer that isn't acknowledged, once more.
    Repeat,
    /// The T_Disconnect of its connection, which was idle for too long.
    Closing,
}
