//! The waits of the gateway's end (ISO 22510, Core and Tunnelling).

/// How long the acknowledgement of a request is awaited, in milliseconds (TUNNELLING_REQUEST_TIMEOUT).
pub const ACK_WAIT_MS: u64 = 1_000;
/// How long a channel stays open without a datagram of its client, in milliseconds (CONNECTION_ALIVE_TIME).
pub const CLIENT_WAIT_MS: u64 = 120_000;
