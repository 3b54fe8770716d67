//! The waits of a channel (ISO 22510, Core and Tunnelling).

/// How long an acknowledgement is awaited, in milliseconds.
pub const ACK_WAIT_MS: u64 = 1_000;
/// How long a connect response is awaited, in milliseconds.
pub const CONNECT_WAIT_MS: u64 = 10_000;
/// How long after a heartbeat, or after the channel came up, the next one is sent, in milliseconds.
pub const HEARTBEAT_PAUSE_MS: u64 = 60_000;
/// How long the answer to a heartbeat is awaited, in milliseconds.
pub const HEARTBEAT_WAIT_MS: u64 = 10_000;
