//! The waits of a connection (ISO/IEC 14543-3-2, transport layer).

/// How long a T_ACK is awaited, in milliseconds.
pub const ACK_WAIT_MS: u64 = 3_000;
/// How long a connection may be idle, in milliseconds.
pub const IDLE_WAIT_MS: u64 = 6_000;
/// How often a frame is sent again.
pub const MOST_REPEATS: u8 = 3;
