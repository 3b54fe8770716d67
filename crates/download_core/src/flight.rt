//! What is between its sending and its confirmation.

/// What of an attempt was put and isn't confirmed.
#[derive(Clone, Copy, Drop, PartialEq, Eq)]
pub enum Flight {
    Nothing,
    /// T_Connect or numbered data, whose confirmation the connection awaits.
    Frame,
    /// A T_ACK or a T_NAK.
    Reply,
}
